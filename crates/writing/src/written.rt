// What is answered where the file that records make is written, and the file put into a lent buffer that has the room.
ghost use Rattle.std.specs.Prelude.{◌≡◌, ◌≤◌, ltb, length};
ghost use Rattle.rules.specs.JobFile.{header_bytes, most_walls, most_loads};
ghost use Rattle.rules.specs.Beyond.{onto};
ghost use Rattle.rules.specs.WrittenFile.{u16s_bytes, header_of, file_of, records_answer, writing_answer};

use crate::bytes;
use crate::lent::Lent;
use job::{EDITION, HEADER_BYTES, Records};
use record::{ENTRY_BYTES, WALL_BYTES};
use rules::{Answer, Refusal};

// The numbers of the header, by how many walls and how many loads there are.
fn header_numbers(walls: u16, loads: u16) -> [u16; 6]
    requires { (walls ≤ most_walls) × (loads ≤ most_loads) }
    ensures { u16s_bytes result ≡ header_of walls loads }
{
    let first_load = HEADER_BYTES + WALL_BYTES * usize::from(walls);
    let length = first_load + ENTRY_BYTES * usize::from(loads);
    [
        EDITION,
        walls,
        HEADER_BYTES as u16,
        loads,
        first_load as u16,
        length as u16,
    ]
}

// Their bytes, each number's behind those of the one before.
fn put_header(walls: u16, loads: u16, out: &mut [u8])
    requires { (walls ≤ most_walls) × (loads ≤ most_loads) × (header_bytes ≤ length out.old) }
    ensures { out.new ≡ onto (header_of walls loads) out.old }
{
    let bytes = header_numbers(walls, loads).map(u16::to_le_bytes);
    out[..HEADER_BYTES].copy_from_slice(bytes.as_flattened());
}

impl Lent<'_> {
    // How many bytes the file has: a number takes four.
    pub fn file_bytes(&self) -> usize
        ensures { result ≡ length (file_of self.now.walls.now self.now.loads.now) }
    {
        HEADER_BYTES + 4 * self.walls.len() + 4 * self.loads.len()
    }

    // 5, 6 and 7, in order.
    fn records_answer(&self) -> Answer
        ensures { result ≡ records_answer self.now.walls.now self.now.loads.now }
    {
        self.check_walls()?;
        self.check_loads()
    }

    // Is room for so many bytes too little for the file?
    fn is_short(&self, room: usize) -> bool
        ensures { result ≡ ltb room (length (file_of self.now.walls.now self.now.loads.now)) }
    {
        room < self.file_bytes()
    }

    // 5, 6 and 7, and 9 last, where there is room for so many bytes.
    pub fn writing_answer(&self, room: usize) -> Answer
        ensures { result ≡ writing_answer self.now.walls.now self.now.loads.now room }
    {
        self.records_answer()?;
        reply::refused_if(self.is_short(room), Err(Refusal::OutputTooShort))
    }

    // The header, the walls behind it, and the loads behind these.
    pub fn put_file(&self, out: &mut [u8])
        requires { length (file_of self.now.walls.now self.now.loads.now) ≤ length out.old }
        ensures { out.new ≡ onto (file_of self.now.walls.now self.now.loads.now) out.old }
    {
        let end = HEADER_BYTES + 4 * self.walls.len();
        put_header(self.wall_count(), self.entry_count(), out);
        bytes::put_u32s(self.walls, &mut out[HEADER_BYTES..]);
        bytes::put_u32s(self.loads, &mut out[end..]);
    }
}
