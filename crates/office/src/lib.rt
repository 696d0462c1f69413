// The sheet for C: its numbers, its text and a wall's drawing, a job written and taken apart, with one number for what is answered, and what the failures of
// a line say of a check. Any bytes are a job, any numbers are records, and any buffer may be lent.
#![tactic(auto)]

ghost use Rattle.std.specs.Prelude.{◌≡◌, ◌≤◌, ◌<◌, ◌^◌, length, MatchOption};
ghost use Rattle.rules.specs.declared.Check.{Check};
ghost use Rattle.rules.specs.Beyond.{Prints, onto, shape_figures, figures};
ghost use Rattle.rules.specs.SheetLine.{checks, bit as bit_of};
ghost use Rattle.office.specs.Packed.{shape_number, Packs, answer_of, besides_of, figure_room, CalculatesPacked, PutsDrawing, DrawsPacked, WritesPacked, TakesApartPacked, has_failed};

use rules::{Check, Drawn, Refusal, Shape};

// A refusal's number stands above the 32 bits of its place.
const NUMBER: u64 = 1 << 32;

// What an answer has besides stands above the 16 bits of that: a shape's number, or how many bytes were written.
const BESIDES: u64 = 1 << 48;

// Room for the figures of any drawing.
const FIGURE_ROOM: usize = 5;

// A shape's number.
fn shape_number(shape: Shape) -> u64
    ensures { (result ≡ shape_number shape) × (result < 2 ^ 16) }
{
    match shape {
        Shape::Nothing => 0,
        Shape::Whole(_, _) => 1,
        Shape::ToeTriangle(_, _) => 2,
        Shape::HeelTriangle(_, _) => 3,
    }
}

// An answer in one number: what it has besides where all is well, or the refusal.
fn packed(answer: Result<u64, Refusal>) -> u64
    requires { besides_of answer < 2 ^ 16 }
    ensures { Packs (answer_of answer) (besides_of answer) result }
{
    match answer {
        Ok(besides) => BESIDES * besides,
        Err(refusal) => {
            let place = u64::from(reply::place_of(Err(refusal)));
            let number = u64::from(reply::number_of(Err(refusal)));
            place + NUMBER * number
        }
    }
}

// A shape's own two figures, where it has them.
fn put_shape(shape: Shape, out: &mut [f64])
    requires { 2 ≤ length out.old }
    ensures { out.new ≡ onto (shape_figures shape) out.old }
{
    match shape {
        Shape::Whole(first, second)
        | Shape::ToeTriangle(first, second)
        | Shape::HeelTriangle(first, second) => out[..2].copy_from_slice(&[first, second]),
        Shape::Nothing => {}
    }
}

// The figures of a drawing: R and H, how far from the toe R acts, and the shape's own.
fn put_figures(drawn: Drawn, out: &mut [f64])
    requires { figure_room ≤ length out.old }
    ensures { out.new ≡ onto (figures drawn) out.old }
{
    let drawing = drawn.drawing;
    out[..3].copy_from_slice(&[drawing.R, drawing.H, drawing.distance]);
    put_shape(drawn.shape, &mut out[3..]);
}

// The check that has a bit, where one has it.
fn check_of(bit: u16) -> Option<Check>
    ensures { MatchOption result ((check : Check) → bit ≡ bit_of check → ⊥) (λ check. bit ≡ bit_of check) }
{
    match bit {
        1 => Some(Check::Slides),
        2 => Some(Check::Overturns),
        4 => Some(Check::OverAllowable),
        8 => Some(Check::NoServiceBlock),
        16 => Some(Check::NoFactoredBlock),
        32 => Some(Check::ToeSteel),
        64 => Some(Check::StemSteel),
        128 => Some(Check::Sheared),
        256 => Some(Check::HeelSteel),
        _ => None,
    }
}

// The sheet of a job in numbers: nineteen for each wall, and whatever stands behind them as it was; or a refusal, and the buffer as it was.
pub fn office_calculate(job: &[u8], out: &mut [i64]) -> u64
    ensures { CalculatesPacked job.now out.old result out.new }
{
    packed(sheet::calculate(job, out).map(|_| 0))
}

// The sheet of a job as it is printed, at the start of the buffer, and how many bytes it took; a refusal is printed too. Without room for the text of
// any job nothing is put, and 0 bytes are used.
pub fn office_text(job: &[u8], out: &mut [u8]) -> usize
    ensures { Prints job.now out.old result out.new }
{
    sheet::text(job, out)
}

// The figures of a wall's drawing are put, and its shape's number is answered; or a refusal.
fn put_drawing(job: &[u8], wall: u32, out: &mut [f64]) -> Result<u64, Refusal>
    ensures { PutsDrawing job.now wall out.old result out.new }
{
    let drawn = sheet::drawing(job, wall)?;
    if out.len() < FIGURE_ROOM {
        return Err(Refusal::BufferTooShort);
    }
    put_figures(drawn, out);
    Ok(shape_number(drawn.shape))
}

// The drawing of a wall, by its number in the file: its figures, and whatever stands behind them as it was; or a refusal, and the buffer as it was.
// Room for five figures is wanted, whatever the shape.
pub fn office_drawing(job: &[u8], wall: u32, out: &mut [f64]) -> u64
    ensures { DrawsPacked job.now wall out.old result out.new }
{
    packed(put_drawing(job, wall, out))
}

// The job file that records make, at the start of the buffer, and whatever stands behind it as it was; the answer has how many bytes it took. Or a
// refusal, and the buffer as it was.
pub fn office_write(walls: &[u32], loads: &[u32], out: &mut [u8]) -> u64
    ensures { WritesPacked walls.now loads.now out.old result out.new }
{
    packed(writing::write(walls, loads, out).map(|bytes| bytes as u64))
}

// The records of a job's walls and of its loads, each at the start of a buffer, and whatever stands behind them as it was; or a refusal, and both buffers
// as they were.
pub fn office_records(job: &[u8], walls: &mut [u32], loads: &mut [u32]) -> u64
    ensures { TakesApartPacked job.now walls.old loads.old result walls.new loads.new }
{
    packed(job::take_apart(job, walls, loads).map(|_| 0))
}

// Is the bit of a check set in the failures of a line? The check is named by its bit; of a number that is no check's bit the answer is false.
pub fn office_has_failed(failures: u16, check: u16) -> bool
    ensures { result ≡ has_failed checks failures check }
{
    match check_of(check) {
        Some(check) => checks::has_failed(failures, check),
        None => false,
    }
}
