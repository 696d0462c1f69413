// The sheet as a static library for C: each function of the crate `office`, under its own name.
#![tactic(auto)]

ghost use Rattle.std.specs.Prelude.{◌≡◌, length};
ghost use Rattle.rules.specs.Beyond.{Prints};
ghost use Rattle.rules.specs.SheetLine.{checks};
ghost use Rattle.office.specs.Packed.{CalculatesPacked, DrawsPacked, WritesPacked, TakesApartPacked, has_failed};

// The sheet of a job in numbers: nineteen for each wall, and whatever stands behind them as it was; or a refusal, and the buffer as it was.
#[unsafe(no_mangle)]
pub extern "C" fn office_calculate(job: &[u8], out: &mut [i64]) -> u64
    ensures { CalculatesPacked job.now out.old result out.new }
{
    office::office_calculate(job, out)
}

// The sheet of a job as it is printed, at the start of the buffer, and how many bytes it took; a refusal is printed too. Without room for the text of
// any job nothing is put, and 0 bytes are used.
#[unsafe(no_mangle)]
pub extern "C" fn office_text(job: &[u8], out: &mut [u8]) -> usize
    ensures { Prints job.now out.old result out.new }
{
    office::office_text(job, out)
}

// The drawing of a wall, by its number in the file: its figures, and whatever stands behind them as it was; or a refusal, and the buffer as it was.
// Room for five figures is wanted, whatever the shape.
#[unsafe(no_mangle)]
pub extern "C" fn office_drawing(job: &[u8], wall: u32, out: &mut [f64]) -> u64
    ensures { DrawsPacked job.now wall out.old result out.new }
{
    office::office_drawing(job, wall, out)
}

// The job file that records make, at the start of the buffer, and whatever stands behind it as it was; the answer has how many bytes it took. Or a
// refusal, and the buffer as it was.
#[unsafe(no_mangle)]
pub extern "C" fn office_write(walls: &[u32], loads: &[u32], out: &mut [u8]) -> u64
    ensures { WritesPacked walls.now loads.now out.old result out.new }
{
    office::office_write(walls, loads, out)
}

// The records of a job's walls and of its loads, each at the start of a buffer, and whatever stands behind them as it was; or a refusal, and both buffers
// as they were.
#[unsafe(no_mangle)]
pub extern "C" fn office_records(job: &[u8], walls: &mut [u32], loads: &mut [u32]) -> u64
    ensures { TakesApartPacked job.now walls.old loads.old result walls.new loads.new }
{
    office::office_records(job, walls, loads)
}

// Is the bit of a check set in the failures of a line? The check is named by its bit; of a number that is no check's bit the answer is false.
#[unsafe(no_mangle)]
pub extern "C" fn office_has_failed(failures: u16, check: u16) -> bool
    ensures { result ≡ has_failed checks failures check }
{
    office::office_has_failed(failures, check)
}
