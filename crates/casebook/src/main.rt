// Prints the sheets of the job files that its arguments name, one behind the other, and at last how many of them were taken apart and written again
// byte for byte. Where a file can't be read, standard error says why, and in place of its sheet stands a line that no sheet has. Of a file longer than the
// buffer the start is enough (`rules` `LongInput.printed_read`).
#![tactic(auto)]

ghost use Rattle.std.specs.Prelude.{◌≤◌, IfOk, length};

use std::env::{Env, FillError};
use std::io::{Read, Write};
use std::rt::Files;
use std::{fs, io, str};

// So much of a file is read, and no text is longer.
const BUFFER: usize = 65536;

// So much of an argument is read: no path is longer.
const NAME: usize = 4096;

// The system's number for the error that a name is longer.
const NAME_TOO_LONG: i32 = 36;

// The sheet of a job.
fn print_sheet<W: Write>(job: &[u8], out: &mut W) -> io::Result<()> {
    let mut text = [0u8; BUFFER];
    let count = sheet::text(job, &mut text);
    out.write_all(&text[..count])
}

// Is a job the same when it is taken apart and written again?
fn is_same_again(job: &[u8]) -> bool {
    let mut file = [0u8; BUFFER];
    let count = sheet::rewrite(job, &mut file);
    job == &file[..count]
}

// The sheet of a job, and whether it was written again byte for byte; one that is refused isn't written.
fn print_job<W: Write>(job: &[u8], out: &mut W) -> io::Result<bool> {
    let is_accepted = job::first_refusal(job).is_ok();
    print_sheet(job, out)?;
    Ok(is_accepted && is_same_again(job))
}

// Says why the file that this argument names has no sheet; such a file isn't written again.
fn tell_unread<R: Print + Eprint>(
    rt: &R,
    number: usize,
    name: &str,
    why: &io::Error,
) -> io::Result<bool> {
    let _ = eprintln!(rt; "argument {number}, {name}: {why}");
    println!(rt; "unread {number}")?;
    Ok(false)
}

// Reads the file of this name until the buffer is full or the file ends, and answers how many bytes stand in it.
fn read_file<R: Files>(rt: &R, name: &str, job: &mut [u8]) -> io::Result<usize>
    ensures { IfOk result (λ n. n ≤ length job.new) }
{
    let room = job.len();
    let count = io::copy(&mut fs::open(rt, name)?.take(room as u64), &mut &mut *job)?;
    Ok(room.min(count as usize))
}

// What is printed of the file that this argument names, and whether it was written again byte for byte.
fn print_file<R: Files + Print + Eprint>(rt: &R, number: usize, name: &str) -> io::Result<bool> {
    let mut job = [0u8; BUFFER];
    match read_file(rt, name, &mut job) {
        Ok(length) => print_job(&job[..length], &mut io::writer(rt)),
        Err(why) => tell_unread(rt, number, name, &why),
    }
}

// That of an argument that was read, which names a file only where it is text.
fn print_named<R: Files + Print + Eprint>(rt: &R, number: usize, name: &[u8]) -> io::Result<bool> {
    match str::from_utf8(name) {
        Ok(text) => print_file(rt, number, text),
        Err(_) => {
            let why = io::Error::from(io::ErrorKind::InvalidInput);
            tell_unread(rt, number, "which is no text", &why)
        }
    }
}

fn main(rt: HostRuntime) -> io::Result<()> {
    let mut again = 0u64;
    for number in 1..usize::MAX {
        let mut name = [0u8; NAME];
        let is_same = match rt.arg(number, &mut name) {
            Ok(length) => print_named(&rt, number, &name[..length])?,
            Err(FillError::TooLong) => {
                let why = io::Error::from_raw_os_error(NAME_TOO_LONG);
                tell_unread(&rt, number, "", &why)?
            }
            Err(FillError::NotPresent) => break,
        };
        if is_same {
            again += 1;
        }
    }
    println!(rt; "{again} jobs written again, byte for byte")
}
