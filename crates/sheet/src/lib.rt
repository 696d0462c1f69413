// Document 01 for a whole job file: the numbers of its sheet, the text that is printed of it, and the drawing of a wall; and the file written again. Each
// entry takes any bytes, and a refusal changes nothing that was lent but for its own text.
#![tactic(auto)]

mod accepted;
mod figures;

ghost use Rattle.rules.specs.Drawing.{Draws};
ghost use Rattle.rules.specs.SheetLine.{Calculates};
ghost use Rattle.rules.specs.Beyond.{Prints};
ghost use Rattle.rules.specs.WrittenFile.{Rewrites};

use accepted::AcceptedJob;
use job::{LOAD_ROOM, MOST_WALLS, WALL_ROOM};
use rules::{Answer, Drawn, LINE, Refusal};
use text::LINE_ROOM;
use writing::FILE_ROOM;

// Room for the text of any job.
pub const SHEET_ROOM: usize = LINE_ROOM * MOST_WALLS;

// The sheet of a job in numbers: nineteen for each wall, in the order of its line, and whatever stands behind them as it was; or the refusal, and
// the buffer as it was.
pub fn calculate(job: &[u8], out: &mut [i64]) -> Answer
    ensures { Calculates job.now out.old result out.new }
{
    let accepted = AcceptedJob::of(job)?;
    if out.len() < LINE * accepted.walls as usize {
        return Err(Refusal::BufferTooShort);
    }
    accepted.put_lines(out);
    Ok(())
}

// The sheet of a job as it is printed, at the start of the buffer, and how many bytes it took; a refusal is printed too. Where the buffer hasn't room
// for the text of any job, it is left as it is, and 0 bytes are used.
pub fn text(job: &[u8], out: &mut [u8]) -> usize
    ensures { Prints job.now out.old result out.new }
{
    if out.len() < SHEET_ROOM {
        return 0;
    }
    match AcceptedJob::of(job) {
        Ok(accepted) => accepted.put_texts(out),
        Err(refusal) => text::refusal_text(Err(refusal), out),
    }
}

// The drawing of a wall, by its number in the file; or the refusal.
pub fn drawing(job: &[u8], wall: u32) -> Result<Drawn, Refusal>
    ensures { Draws job.now wall result }
{
    let accepted = AcceptedJob::of(job)?;
    match wall.checked_sub(1) {
        Some(i) if i < accepted.walls => Ok(accepted.drawn(i)),
        _ => Err(Refusal::NoSuchWall(wall)),
    }
}

// Document 02, #101: a job taken apart and written again, at the start of the buffer, and how many bytes it took; a refusal is printed. Where the buffer
// hasn't room for the file of any job, it is left as it is, and 0 bytes are used.
pub fn rewrite(job: &[u8], out: &mut [u8]) -> usize
    ensures { Rewrites job.now out.old result out.new }
{
    if out.len() < FILE_ROOM {
        return 0;
    }
    let mut walls = [0u32; WALL_ROOM];
    let mut loads = [0u32; LOAD_ROOM];
    let taken = match job::take_apart(job, &mut walls, &mut loads) {
        Ok(taken) => taken,
        Err(refusal) => return text::refusal_text(Err(refusal), out),
    };
    writing::write(&walls[..taken.walls], &loads[..taken.loads], out).unwrap()
}
