// Records in lent buffers, whole ones that stand one behind the other: they are judged as those of a file.
ghost use Rattle.std.specs.Prelude.{◌≡◌, ◌≤◌, ◌<◌, false, T, length, MatchResult};
ghost use Rattle.rules.specs.declared.Refusal.TheVariants.{CountOutOfRange};
ghost use Rattle.rules.specs.JobFile.{wall_fields, entry_fields, most_walls};
ghost use Rattle.rules.specs.WrittenFile.{record_count, record_in, records_in, records_fit};

use job::Records;
use record::{
    COVER_IN_FRONT, ENTRY_FIELDS, Entry, FIELDS, MOST_LOADS, MOST_WALLS, STEM_HEIGHT, Wall,
};
use rules::Refusal;

// Two buffers of whole records: of as many walls and loads as a file may have.
#[derive(Clone, Copy)]
pub struct Lent<'a> {
    pub walls: &'a [u32],
    pub loads: &'a [u32],
    ghost fit: { T (records_fit walls.now loads.now) },
    ghost few_walls: { length (records_in wall_fields walls.now) ≤ most_walls },
}

impl Records for Lent<'_> {
    ghost walls = { λ lent. records_in wall_fields lent.walls.now };

    ghost entries = { λ lent. records_in entry_fields lent.loads.now };

    ghost few_walls = { λ lent. lent.few_walls };

    fn wall_count(&self) -> u16 {
        wall_count(self.walls) as u16
    }

    fn wall_at(&self, i: u32) -> Wall {
        record_at(self.walls, i)
    }

    fn lengths_at(&self, i: u32) -> Wall {
        let mut lengths = [0; FIELDS];
        let (walls, _) = self.walls.as_chunks::<FIELDS>();
        if let Some(wall) = walls.get(i as usize) {
            let read = &wall[STEM_HEIGHT..COVER_IN_FRONT];
            lengths[STEM_HEIGHT..COVER_IN_FRONT].copy_from_slice(read);
        }
        lengths
    }

    fn entry_count(&self) -> u16 {
        load_count(self.loads) as u16
    }

    fn entry_at(&self, i: u32) -> Entry {
        record_at(self.loads, i)
    }
}

// The record at an index from 0; behind the last one, zeros.
fn record_at<const N: usize>(numbers: &[u32], i: u32) -> [u32; N]
    requires { 0 < N }
    ensures { i < record_count N numbers.now → result ≡ record_in N numbers.now i }
{
    let (records, _) = numbers.as_chunks();
    records.get(i as usize).copied().unwrap_or([0; N])
}

// How many walls there are.
pub fn wall_count(walls: &[u32]) -> usize
    ensures { result ≡ record_count wall_fields walls.now }
{
    walls.len() / FIELDS
}

pub fn load_count(loads: &[u32]) -> usize
    ensures { result ≡ record_count entry_fields loads.now }
{
    loads.len() / ENTRY_FIELDS
}

// 3: are both buffers whole records, and both counts within range?
fn records_fit(walls: &[u32], loads: &[u32]) -> bool
    ensures { result ≡ records_fit walls.now loads.now }
{
    let wall_count = wall_count(walls);
    let load_count = load_count(loads);
    (walls.len() % FIELDS == 0)
        & (loads.len() % ENTRY_FIELDS == 0)
        & (1 <= wall_count)
        & (wall_count <= MOST_WALLS)
        & (load_count <= MOST_LOADS)
}

// The records of two buffers, or 3.
pub fn whole<'a>(walls: &'a [u32], loads: &'a [u32]) -> Result<Lent<'a>, Refusal>
    ensures { MatchResult result (λ lent. (lent.walls.now ≡ walls.now) × (lent.loads.now ≡ loads.now)) (λ refusal. (refusal ≡ CountOutOfRange) × (records_fit walls.now loads.now ≡ false)) }
{
    if records_fit(walls, loads) {
        Ok(Lent { walls, loads })
    } else {
        Err(Refusal::CountOutOfRange)
    }
}
