// Document 01, "The job file": is a wall, is a load within range? And what is answered of one wall with its loads.
#![tactic(auto)]

ghost use Rattle.std.specs.Prelude.{◌≡◌, ◌<◌, ◌^◌, get_or};
ghost use Rattle.rules.specs.JobFile.{Wall, base_length, crest_height, wall_height, bars, among, within, first_bad_field, load_of, reach, load_fits};
ghost use Rattle.rules.specs.Answered.{wall_answer};
ghost use Rattle.rules.specs.Beyond.{load_answer, first_unfit, examined};
ghost use Rattle.record.specs.Measured.{measures_of};

use rules::{Answer, BARS, Range, Refusal};

// A wall is a number for each of its fields, in file order.
pub const FIELDS: usize = 38;

pub type Wall = [u32; FIELDS];

// A number takes four bytes.
pub const WALL_BYTES: usize = 4 * FIELDS;

// Where the fields stand: a field's index is its number less 1.
pub const KIND: usize = 0;

pub const STEM_HEIGHT: usize = 1;

pub const STEM_THICKNESS: usize = 2;

pub const TOE_LENGTH: usize = 3;

pub const HEEL_LENGTH: usize = 4;

pub const BASE_THICKNESS: usize = 5;

pub const COVER_IN_FRONT: usize = 6;

pub const EXCAVATION: usize = 7;

pub const WATER_HEIGHT: usize = 8;

pub const STEM_DENSITY: usize = 9;

pub const BASE_DENSITY: usize = 10;

pub const MOIST_DENSITY: usize = 11;

pub const SATURATED_DENSITY: usize = 12;

pub const SOIL_DENSITY: usize = 13;

pub const ACTIVE_COEFFICIENT: usize = 14;

pub const REST_COEFFICIENT: usize = 15;

pub const PASSIVE_COEFFICIENT: usize = 16;

pub const FRICTION_TANGENT: usize = 17;

pub const ALLOWABLE_BEARING: usize = 18;

pub const SURCHARGE: usize = 19;

pub const CONCRETE_STRENGTH: usize = 20;

pub const STEEL_STRENGTH: usize = 21;

pub const LEAST_STEEL: usize = 22;

pub const TOE_COVER: usize = 23;

pub const TOE_BAR: usize = 24;

pub const TOE_SPACING: usize = 25;

pub const STEM_COVER: usize = 26;

pub const STEM_BAR: usize = 27;

pub const STEM_SPACING: usize = 28;

pub const TOE_STRESS: usize = 29;

pub const STEM_STRESS: usize = 30;

pub const HEEL_COVER: usize = 31;

pub const HEEL_BAR: usize = 32;

pub const HEEL_SPACING: usize = 33;

pub const HEEL_STRESS: usize = 34;

pub const DOWNSTAND_DEPTH: usize = 35;

pub const DOWNSTAND_POSITION: usize = 36;

pub const DOWNSTAND_THICKNESS: usize = 37;

// A load is its direction, its position, its dead and its live part.
pub const LOAD_FIELDS: usize = 4;

pub type Load = [u32; LOAD_FIELDS];

// The loads of a wall: as many rows as it may have loads, with nothing but zeros after the last.
pub const MOST_LOADS_ON_WALL: usize = 8;

pub type Loads = [Load; MOST_LOADS_ON_WALL];

pub const DIRECTION: usize = 0;

pub const POSITION: usize = 1;

pub const DEAD: usize = 2;

pub const LIVE: usize = 3;

// An entry of a file: the number of a wall, and behind it a load.
pub const ENTRY_FIELDS: usize = 1 + LOAD_FIELDS;

pub type Entry = [u32; ENTRY_FIELDS];

pub const ENTRY_BYTES: usize = 4 * ENTRY_FIELDS;

pub const WALL_NUMBER: usize = 0;

// How many walls a file may have, and how many loads.
pub const MOST_WALLS: usize = 64;

pub const MOST_LOADS: usize = 512;

// A count of loads for each wall number, from 0 on.
pub const COUNTS: usize = MOST_WALLS + 1;

pub type Counts = [u32; COUNTS];

// The range of each field, in field order: a row for each of document 01's, and behind them the heel's four and the downstand's three.
const RANGES: [Range; FIELDS] = [
    Range::Between(0, 1),
    Range::Between(500, 8000),
    Range::Between(200, 1500),
    Range::Between(0, 5000),
    Range::Between(0, 5000),
    Range::Between(200, 1500),
    Range::Between(0, 1000),
    Range::Between(0, 1000),
    Range::UpToTop,
    Range::Between(1500, 3000),
    Range::Between(1500, 3000),
    Range::Between(1000, 3000),
    Range::Between(1000, 3000),
    Range::Between(1000, 3000),
    Range::Between(1, 1000),
    Range::Between(1, 1000),
    Range::Between(0, 15000),
    Range::Between(0, 1000),
    Range::Between(1, 1000),
    Range::Between(0, 10000),
    Range::Between(20, 60),
    Range::Between(250, 500),
    Range::Between(0, 100),
    Range::Between(20, 75),
    Range::ABar,
    Range::Between(50, 500),
    Range::Between(20, 75),
    Range::ABar,
    Range::Between(50, 500),
    Range::Between(1, 5000),
    Range::Between(1, 5000),
    Range::Between(20, 75), // heel cover
    Range::ABar, // heel bar
    Range::Between(50, 500), // heel spacing
    Range::Between(1, 5000), // heel stress
    Range::Between(0, 1000), // downstand depth
    Range::AlongBase, // downstand position
    Range::UnderBase(100, 1500), // downstand thickness
];

// The greatest dead load, and the greatest live load, in N/m.
const GREATEST_LOAD: u32 = 200000;

// The field at an index, which is its number less 1; 0 behind the last.
pub fn field(wall: Wall, i: usize) -> u64
    ensures { (result ≡ get_or wall i 0) × (result < 2 ^ 32) }
{
    wall.get(i).map_or(0, |n| u64::from(*n))
}

// The base's length l: toe, stem and heel.
pub fn base_length(wall: Wall) -> u64
    ensures { result ≡ base_length wall }
{
    field(wall, TOE_LENGTH) + field(wall, STEM_THICKNESS) + field(wall, HEEL_LENGTH)
}

// How high the crest stands above the base's underside: stem and base.
pub fn crest_height(wall: Wall) -> u64
    ensures { result ≡ crest_height wall }
{
    field(wall, STEM_HEIGHT) + field(wall, BASE_THICKNESS)
}

// The wall's height h: the downstand is part of it.
pub fn wall_height(wall: Wall) -> u64
    ensures { result ≡ wall_height wall }
{
    crest_height(wall) + field(wall, DOWNSTAND_DEPTH)
}

fn is_bar(n: u32) -> bool
    ensures { result ≡ among n bars }
{
    BARS.contains(&n)
}

// What a wall's ranges go by: its height, its base's length, and the depth and position of its downstand.
#[derive(Clone, Copy)]
struct Measures {
    height: u64,
    length: u64,
    depth: u32,
    position: u32,
}

fn measures_of(wall: Wall) -> Measures
    ensures { result ≡ measures_of wall }
{
    Measures {
        height: wall_height(wall),
        length: base_length(wall),
        depth: wall[DOWNSTAND_DEPTH],
        position: wall[DOWNSTAND_POSITION],
    }
}

// Is a number within a range of any wall with these measures?
fn is_within(measures: Measures, range: Range, n: u32) -> bool
    ensures { (wall : Wall) → measures ≡ measures_of wall → result ≡ within wall range n }
{
    match range {
        Range::Between(low, high) => low <= n && n <= high,
        Range::UpToTop => u64::from(n) <= measures.height,
        Range::AlongBase => if 0 < measures.depth {
            u64::from(n) <= measures.length
        } else {
            n == 0
        },
        Range::UnderBase(low, high) => if 0 < measures.depth {
            (low <= n)
                & (n <= high)
                & (u64::from(measures.position) + u64::from(n) <= measures.length)
        } else {
            n == 0
        },
        Range::ABar => is_bar(n),
    }
}

// The number of the first field out of range, in field order.
fn first_bad_field(wall: Wall) -> Option<u16>
    ensures { result ≡ first_bad_field wall }
{
    let measures = measures_of(wall);
    let place = wall
        .iter()
        .zip(&RANGES)
        .position(|(n, range)| !is_within(measures, *range, *n))?;
    Some(place as u16 + 1)
}

// 5: a wall with a field out of range is refused, at the number that it has and at the first such field.
#[tactic(auto, unfolding(rules::specs::Answered::wall_answer))]
pub fn wall_answer(wall: Wall, number: u16) -> Answer
    ensures { result ≡ wall_answer number wall }
{
    match first_bad_field(wall) {
        Some(field) => Err(Refusal::WallOutOfRange(number, field)),
        None => Ok(()),
    }
}

// How far a load can stand: a load down along the base, a horizontal one up the wall.
fn reach_of(wall: Wall, load: Load) -> u64
    ensures { result ≡ reach wall load }
{
    if load[DIRECTION] == 0 {
        base_length(wall)
    } else {
        crest_height(wall)
    }
}

// Is a load within range against its wall?
pub fn load_fits(wall: Wall, load: Load) -> bool
    ensures { result ≡ load_fits wall load }
{
    load[DIRECTION] <= 1
        && u64::from(load[POSITION]) <= reach_of(wall, load)
        && load[DEAD] <= GREATEST_LOAD
        && load[LIVE] <= GREATEST_LOAD
}

// An entry's load: everything but the number of its wall.
pub fn load_of(entry: Entry) -> Load
    ensures { result ≡ load_of entry }
{
    let [_, direction, position, dead, live] = entry;
    [direction, position, dead, live]
}

// 6 and 7: what is answered of the load with a number, by whether it fits and how many were passed on its wall.
pub fn load_answer(fits: bool, passed: u32, number: u32) -> Answer
    ensures { result ≡ load_answer fits passed number }
{
    if !fits {
        return Err(Refusal::LoadOutOfRange(number));
    }
    if MOST_LOADS_ON_WALL as u32 <= passed {
        return Err(Refusal::NinthLoad(number));
    }
    Ok(())
}

// How many loads were passed on the wall with a number; none on a wall that no file can have.
pub fn count_on(counts: Counts, number: u32) -> u32
    ensures { result ≡ get_or counts number 0 }
{
    counts.get(number as usize).map_or(0, |count| *count)
}

// The number of the first load that doesn't fit the wall, from 1.
fn first_unfit(wall: Wall, loads: Loads) -> Option<u32>
    ensures { result ≡ first_unfit wall 1 loads }
{
    let place = loads.iter().position(|load| !load_fits(wall, *load))?;
    Some(place as u32 + 1)
}

// One wall with its loads by itself: as a file would be answered that has just these. An absent load is a row of zeros, which fits any wall.
pub fn examined(wall: Wall, loads: Loads) -> Answer
    ensures { result ≡ examined wall loads }
{
    wall_answer(wall, 1)?;
    match first_unfit(wall, loads) {
        Some(load) => Err(Refusal::LoadOutOfRange(load)),
        None => Ok(()),
    }
}
