// The records of a file, as its walls and loads are judged by; and its entries, each a wall's number and a load.
ghost use Rattle.std.specs.Prelude.{◌≡◌, ◌≤◌, length};
ghost use Rattle.rules.specs.JobFile.{most_walls, entry_at, walls, entries};
ghost use Rattle.job.specs.Places.{load_numbered};

use crate::ranges::Records;
use crate::{bytes, header};
use record::{
    COVER_IN_FRONT, ENTRY_BYTES, ENTRY_FIELDS, Entry, FIELDS, LOAD_FIELDS, Load, STEM_HEIGHT, Wall,
};

// A file that has no more walls than it may.
#[derive(Clone, Copy)]
pub struct JobFile<'a> {
    pub bytes: &'a [u8],
    ghost few_walls: { length (walls bytes.now) ≤ most_walls },
}

impl Records for JobFile<'_> {
    ghost walls = { λ file. walls file.bytes.now };

    ghost entries = { λ file. entries file.bytes.now };

    ghost few_walls = { λ file. file.few_walls };

    fn wall_count(&self) -> u16 {
        crate::wall_count(self.bytes)
    }

    fn wall_at(&self, i: u32) -> Wall {
        crate::wall_at(self.bytes, i)
    }

    // They stand one behind the other.
    fn lengths_at(&self, i: u32) -> Wall {
        let at = header::walls_end(i) + 4 * STEM_HEIGHT;
        let mut lengths = [0u32; FIELDS];
        bytes::read_u32s(self.bytes, at, &mut lengths[STEM_HEIGHT..COVER_IN_FRONT]);
        lengths
    }

    fn entry_count(&self) -> u16 {
        header::load_count(self.bytes)
    }

    fn entry_at(&self, i: u32) -> Entry {
        entry_at(self.bytes, i)
    }
}

// The entry at an index from 0.
pub fn entry_at(file: &[u8], i: u32) -> Entry
    ensures { result ≡ entry_at file.now i }
{
    let at = header::entries_at(file) + ENTRY_BYTES * (i as usize);
    let mut entry = [0u32; ENTRY_FIELDS];
    bytes::read_u32s(file, at, &mut entry);
    entry
}

// The load with a number, from 1; number 0 is no load.
pub fn load_numbered(file: &[u8], number: u32) -> Load
    ensures { result ≡ load_numbered file.now number }
{
    if number == 0 {
        return [0u32; LOAD_FIELDS];
    }
    record::load_of(entry_at(file, number - 1))
}
