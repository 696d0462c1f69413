// Prints the sheet of the job file on standard input: a line for each wall, or the refusal. Of an input that is longer than the buffer the start
// is enough, since no job is as long (`rules` `LongInput.printed_read`).
#![tactic(auto)]

use std::io;
use std::io::{Read, Write};

// So much of an input is read, and no text is longer.
const BUFFER: usize = 65536;

fn main(rt: HostRuntime) -> io::Result<()> {
    let mut job = [0u8; BUFFER];
    let count = io::copy(&mut rt.stdin().take(BUFFER as u64), &mut job.as_mut_slice())?;
    let length = BUFFER.min(count as usize);
    let mut text = [0u8; BUFFER];
    let used = sheet::text(&job[..length], &mut text);
    rt.stdout().write_all(&text[..used])
}
