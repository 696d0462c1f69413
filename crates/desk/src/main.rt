// The desk's work, a command for each thing that it does; without one it says what they are. Of an input that is longer than the buffer the start is
// enough, since no job is as long (`rules` `Rewritten.rewritten_read`).
#![tactic(auto)]

mod commands;

use commands::Command;
use std::env::{Env, FillError};
use std::io;
use std::io::{Read, Write};

// So much of an input is read, and no job is longer.
const BUFFER: usize = 65536;

// So much of an argument is read: no command is longer.
const WORD: usize = 4096;

// The job that is read, written again, or its refusal.
fn rewrite<R: Read + Drop, W: Write>(input: R, out: &mut W) -> io::Result<()> {
    let mut job = [0u8; BUFFER];
    let count = io::copy(&mut input.take(BUFFER as u64), &mut job.as_mut_slice())?;
    let length = BUFFER.min(count as usize);
    let mut file = [0u8; BUFFER];
    let used = sheet::rewrite(&job[..length], &mut file);
    out.write_all(&file[..used])
}

fn say_what_it_can_do<W: Write>(out: &mut W) -> io::Result<()> {
    out.write_all(
        b"desk COMMAND works on a job file. The commands:\n  rewrite   reads a job on standard input, takes it apart and writes it again on standard output;\n            of a job that is refused it prints the line of the refusal\n",
    )
}

fn say_no_command<W: Write>(out: &mut W) -> io::Result<()> {
    out.write_all(b"desk: there is no such command\n")?;
    say_what_it_can_do(out)
}

// Is there an argument with this number?
fn is_given<E: Env>(program: &E, number: usize) -> bool {
    let mut start = [0u8; 1];
    !matches!(program.arg(number, &mut start), Err(FillError::NotPresent))
}

// What the arguments ask for; one command has none behind it. A word that is longer than any command is none.
fn asked<E: Env>(program: &E) -> Option<Command> {
    if is_given(program, 2) {
        return None;
    }
    let mut word = [0u8; WORD];
    let length = program.arg(1, &mut word).ok()?;
    commands::command_of(&word[..length])
}

fn main(rt: HostRuntime) -> io::Result<()> {
    if !is_given(&rt, 1) {
        return say_what_it_can_do(&mut rt.stdout());
    }
    match asked(&rt) {
        Some(Command::Rewrite) => rewrite(rt.stdin(), &mut rt.stdout()),
        None => say_no_command(&mut rt.stderr()),
    }
}
