// Document 02, #101: a job file written. Any numbers are records, and they have one answer.
#![tactic(auto)]

use job::HEADER_BYTES;
use record::{ENTRY_BYTES, MOST_LOADS, MOST_WALLS, WALL_BYTES};
use rules::Refusal;

mod bytes;
mod lent;
mod written;

ghost use Rattle.rules.specs.WrittenFile.{Writes};

// Room for any file.
pub const FILE_ROOM: usize = HEADER_BYTES + WALL_BYTES * MOST_WALLS + ENTRY_BYTES * MOST_LOADS;

// The file that records make is written at the start of the buffer, and whatever stands behind it is as it was; or it is refused, and the buffer is as it was.
pub fn write(walls: &[u32], loads: &[u32], out: &mut [u8]) -> Result<usize, Refusal>
    ensures { Writes walls.now loads.now out.old result out.new }
{
    let records = lent::whole(walls, loads)?;
    records.writing_answer(out.len())?;
    records.put_file(out);
    Ok(records.file_bytes())
}
