// The header but for its count of walls, and where the records behind it stand.
ghost use Rattle.std.specs.Prelude.{◌≡◌, ◌+◌, ◌*◌, ◌<◌, ◌^◌};
ghost use Rattle.rules.specs.JobFile.{header_bytes, wall_fields, entry_fields, wall_bytes, edition, wall_count, first_wall_offset, load_count, first_load_offset, whole_length};

use crate::{HEADER_BYTES, bytes};
use record::{ENTRY_FIELDS, FIELDS, WALL_BYTES};

pub fn edition(file: &[u8]) -> u16
    ensures { result ≡ edition file.now }
{
    bytes::u16_at(file, 0)
}

pub fn first_wall_offset(file: &[u8]) -> u16
    ensures { result ≡ first_wall_offset file.now }
{
    bytes::u16_at(file, 4)
}

pub fn load_count(file: &[u8]) -> u16
    ensures { result ≡ load_count file.now }
{
    bytes::u16_at(file, 6)
}

pub fn first_load_offset(file: &[u8]) -> u16
    ensures { result ≡ first_load_offset file.now }
{
    bytes::u16_at(file, 8)
}

pub fn whole_length(file: &[u8]) -> u16
    ensures { result ≡ whole_length file.now }
{
    bytes::u16_at(file, 10)
}

// Where so many walls end, the first of which stands behind the header.
pub fn walls_end(walls: u32) -> usize
    ensures { (result ≡ header_bytes + wall_bytes * walls) × (result < 2 ^ 40) }
{
    HEADER_BYTES + WALL_BYTES * (walls as usize)
}

// Where the first entry stands: behind as many walls as the header says.
pub fn entries_at(file: &[u8]) -> usize
    ensures { (result ≡ header_bytes + wall_bytes * wall_count file.now) × (result < 2 ^ 40) }
{
    walls_end(u32::from(crate::wall_count(file)))
}

// How many numbers the records of the walls have, and those of the loads.
pub fn wall_numbers(file: &[u8]) -> usize
    ensures { (result ≡ wall_fields * wall_count file.now) × (result < 2 ^ 40) }
{
    FIELDS * usize::from(crate::wall_count(file))
}

pub fn load_numbers(file: &[u8]) -> usize
    ensures { (result ≡ entry_fields * load_count file.now) × (result < 2 ^ 40) }
{
    ENTRY_FIELDS * usize::from(load_count(file))
}
