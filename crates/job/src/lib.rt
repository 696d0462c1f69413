// A job file taken apart, and its first refusal: any bytes have walls, loads of each wall, and one answer.
#![tactic(auto)]

pub use ranges::Records;
pub use record::MOST_WALLS;
use record::{
    ENTRY_FIELDS, FIELDS, LOAD_FIELDS, Loads, MOST_LOADS, MOST_LOADS_ON_WALL, WALL_NUMBER, Wall,
};
use records::JobFile;
use rules::{Answer, Refusal, Taken};

mod bytes;
mod header;
mod ranges;
mod records;
mod refusals;
mod rows;

ghost use Rattle.std.specs.Prelude.{◌≡◌};
ghost use Rattle.rules.specs.JobFile.{wall_count, wall_at, entries};
ghost use Rattle.rules.specs.Answered.{first_refusal};
ghost use Rattle.rules.specs.WrittenFile.{TakesApart};
ghost use Rattle.job.specs.Places.{place_table, loads_at};

// The edition that is read and written.
pub const EDITION: u16 = 2;

pub const HEADER_BYTES: usize = 12;

// Room for the records of any file, in numbers: of its walls, and of its loads.
pub const WALL_ROOM: usize = FIELDS * MOST_WALLS;

pub const LOAD_ROOM: usize = ENTRY_FIELDS * MOST_LOADS;

// The places of a wall's loads: their numbers in the file, and 0 after the last.
pub type PlaceRow = [u32; MOST_LOADS_ON_WALL];

// A row of places for each wall.
pub type PlaceTable = [PlaceRow; MOST_WALLS];

// Document 01, "What is answered": the tests of the header one after the other, then the walls, then the loads.
pub fn first_refusal(file: &[u8]) -> Answer
    ensures { result ≡ first_refusal file.now }
{
    refusals::check_header(file)?;
    let records = JobFile { bytes: file };
    records.check_walls()?;
    records.check_loads()
}

// How many walls the header says there are.
pub fn wall_count(file: &[u8]) -> u16
    ensures { result ≡ wall_count file.now }
{
    bytes::u16_at(file, 2)
}

// The wall at an index from 0.
pub fn wall_at(file: &[u8], i: u32) -> Wall
    ensures { result ≡ wall_at file.now i }
{
    let at = header::walls_end(i);
    let mut wall = [0u32; FIELDS];
    bytes::read_u32s(file, at, &mut wall);
    wall
}

// Where each wall's loads are in the file, in one pass: of a wall, the numbers of its first eight.
pub fn places(file: &[u8]) -> PlaceTable
    ensures { result ≡ place_table (entries file.now) }
{
    let mut table = [[0u32; MOST_LOADS_ON_WALL]; MOST_WALLS];
    let loads = u32::from(header::load_count(file));
    for i in 0..loads {
        let entry = records::entry_at(file, i);
        let wall = entry[WALL_NUMBER];
        if 1 <= wall && wall <= MOST_WALLS as u32 {
            let index = (wall - 1) as usize;
            rows::add_place(&mut table[index], i + 1);
        }
    }
    table
}

// What stands at a row of places: of a wall's row, the wall's loads.
pub fn loads_at(file: &[u8], row: PlaceRow) -> Loads
    ensures { result ≡ loads_at file.now row }
{
    let mut loads = [[0u32; LOAD_FIELDS]; MOST_LOADS_ON_WALL];
    for (i, number) in row.iter().enumerate() {
        loads[i] = records::load_numbered(file, *number);
    }
    loads
}

// Document 02, #101: a file taken apart. The records of its walls are put at the start of the one buffer, those of its loads at the start of the other,
// and whatever stands behind them is as it was; or it is refused, and both are as they were.
pub fn take_apart(file: &[u8], walls: &mut [u32], loads: &mut [u32]) -> Result<Taken, Refusal>
    ensures { TakesApart file.now walls.old loads.old result walls.new loads.new }
{
    refusals::taking_answer(file, walls.len(), loads.len())?;
    let wall_numbers = header::wall_numbers(file);
    let load_numbers = header::load_numbers(file);
    bytes::read_u32s(file, HEADER_BYTES, &mut walls[..wall_numbers]);
    bytes::read_u32s(file, header::entries_at(file), &mut loads[..load_numbers]);
    Ok(Taken {
        walls: wall_numbers,
        loads: load_numbers,
    })
}
