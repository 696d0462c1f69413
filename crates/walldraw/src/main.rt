// Prints the drawing of a wall of the job file on standard input: the name of its shape and its figures' bits, or the refusal. The wall's number
// is the argument.
#![tactic(auto)]

use std::env::{Env, FillError};
use std::io;
use std::io::{Read, Write};
use text::LINE_ROOM;

// So much of an input is read: no job is longer.
const BUFFER: usize = 65536;

// So much of an argument is read: no number is longer.
const WORD: usize = 4096;

// The drawing of a wall of the job.
fn print_drawing<W: Write>(job: &[u8], wall: u32, out: &mut W) -> io::Result<()> {
    let drawn = sheet::drawing(job, wall);
    let mut line = [0u8; LINE_ROOM];
    let count = text::drawing_text(drawn, &mut line);
    out.write_all(&line[..count])
}

// The wall's number that the argument asks for, where there is just one. An argument that is longer than any number asks for none.
fn asked<E: Env>(program: &E) -> Option<u32> {
    let mut word = [0u8; WORD];
    if !matches!(program.arg(2, &mut word), Err(FillError::NotPresent)) {
        return None;
    }
    let length = program.arg(1, &mut word).ok()?;
    keyed::number_of(&word[..length])
}

fn main(rt: HostRuntime) -> io::Result<()> {
    let Some(wall) = asked(&rt) else {
        return rt.stderr().write_all(
            b"walldraw: give the number of a wall, in one to ten digits\n",
        );
    };
    let mut job = [0u8; BUFFER];
    let count = io::copy(&mut rt.stdin().take(BUFFER as u64), &mut job.as_mut_slice())?;
    let length = BUFFER.min(count as usize);
    print_drawing(&job[..length], wall, &mut rt.stdout())
}
