// Document 01, "What is answered": the tests of the header, and whether there is room for a file's records.
ghost use Rattle.std.specs.Prelude.{◌≡◌};
ghost use Rattle.rules.specs.Answered.{counts_fit, offsets_fit, length_fits};
ghost use Rattle.rules.specs.WrittenFile.{taking_answer};
ghost use Rattle.job.specs.Refusals.{header_answer};

use crate::{EDITION, HEADER_BYTES, header};
use record::{ENTRY_BYTES, MOST_LOADS, MOST_WALLS};
use rules::{Answer, Refusal};

// 3: are both counts within range?
fn counts_fit(file: &[u8]) -> bool
    ensures { result ≡ counts_fit file.now }
{
    let walls = usize::from(crate::wall_count(file));
    let loads = usize::from(header::load_count(file));
    (1 <= walls) & (walls <= MOST_WALLS) & (loads <= MOST_LOADS)
}

// 4: are both offsets those that the counts give?
fn offsets_fit(file: &[u8]) -> bool
    ensures { result ≡ offsets_fit file.now }
{
    let first_wall = usize::from(header::first_wall_offset(file));
    let first_load = usize::from(header::first_load_offset(file));
    let entries = header::entries_at(file);
    (first_wall == HEADER_BYTES) & (first_load == entries)
}

// 10: is the length the one that the counts give, and the input's?
fn length_fits(file: &[u8]) -> bool
    ensures { result ≡ length_fits file.now }
{
    let length = usize::from(header::whole_length(file));
    let end = header::entries_at(file) + ENTRY_BYTES * usize::from(header::load_count(file));
    (length == end) & (length == file.len())
}

// 1 to 4, and 10 behind them: the tests of the header.
pub fn check_header(file: &[u8]) -> Answer
    ensures { result ≡ header_answer file.now }
{
    if file.len() < HEADER_BYTES {
        return Err(Refusal::TooShort);
    }
    if header::edition(file) != EDITION {
        return Err(Refusal::WrongEdition);
    }
    if !counts_fit(file) {
        return Err(Refusal::CountOutOfRange);
    }
    if !offsets_fit(file) {
        return Err(Refusal::WrongOffset);
    }
    if !length_fits(file) {
        return Err(Refusal::WrongLength);
    }
    Ok(())
}

// Document 02, #101: the refusals of the file, and 8 last, where there is room for so many numbers of walls and of loads.
pub fn taking_answer(file: &[u8], walls: usize, loads: usize) -> Answer
    ensures { result ≡ taking_answer file.now walls loads }
{
    crate::first_refusal(file)?;
    let is_short = (walls < header::wall_numbers(file)) | (loads < header::load_numbers(file));
    reply::refused_if(is_short, Err(Refusal::BufferTooShort))
}
