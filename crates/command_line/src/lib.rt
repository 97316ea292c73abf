// What the programs ask of the command line: the files that its arguments name, standard input and output, and a line on standard error that names what failed. The system's answers
// are outside of what a clause can say.
#![tactic(auto)]

ghost use Rattle.std.specs.Prelude.{◌≤◌, length, IfOk};

use std::env::FillError;
use std::fs::File;
use std::io;
use std::io::{Eprint, ErrorKind, Input, Print, Read, Write};
use std::rt::{Env, Files};

// Room for any path that the system takes.
pub const PATH_BYTES: usize = 4096;

// The longest text that an error has.
const ERROR_BYTES: usize = 128;

// What a program does with each source that its arguments name.
pub trait Job {
    fn run(&mut self, rt: &(impl Print + Eprint), source: &mut impl Read, name: &str);
}

// How many arguments the program was started with, its own name among them. The loop has to end, and no program has as many as `usize::MAX`.
pub fn argument_count(rt: &impl Env) -> usize {
    for index in 0..usize::MAX {
        if let Err(FillError::NotPresent) = rt.arg(index, &mut []) {
            return index;
        }
    }
    usize::MAX
}

// An argument, in a buffer that is lent. One that is longer than that is refused, and so is one that is no text, since std opens no file by such a name.
pub fn argument<'a>(rt: &impl Env, index: usize, buffer: &'a mut [u8]) -> io::Result<&'a str>
    ensures { IfOk result (λ text. length text.now ≤ length buffer.old) }
{
    match rt.arg(index, buffer) {
        Ok(size) => match str::from_utf8(&buffer[..size]) {
            Ok(text) => Ok(text),
            Err(_) => Err(io::Error::new(ErrorKind::InvalidData, "Not UTF-8")),
        },
        Err(FillError::TooLong) => {
            Err(io::Error::new(ErrorKind::InvalidFilename, "File name too long"))
        }
        Err(FillError::NotPresent) => {
            Err(io::Error::new(ErrorKind::InvalidInput, "Invalid argument"))
        }
    }
}

// Writes a line to standard error: what failed, as the caller names it, a colon and the error's text, without the number that std adds to the system's. If this fails too, nothing
// is left to say so.
pub fn fail(rt: &impl Eprint, what: &str, error: io::Error) {
    let mut text = [0u8; ERROR_BYTES];
    let _ = write!(&mut text[..], "{error}");
    let shown = str::from_utf8(&text).unwrap_or("");
    let reason = match shown.split_once(" (os error ") {
        Some((reason, _)) => reason,
        None => shown.trim_end_matches('\0'),
    };
    let _ = eprintln!(rt; "{what}: {reason}");
}

// Writes bytes to standard output.
pub fn print(rt: &(impl Print + Eprint), bytes: &[u8]) {
    if let Err(error) = rt.write_all(bytes) {
        fail(rt, "standard output", error);
    }
}

// Runs a job on standard input.
fn run_on_standard_input(rt: &(impl Input + Print + Eprint), job: &mut impl Job) {
    job.run(rt, &mut rt.reader(), "standard input");
}

// Runs a job on a file; one that cannot be opened is named on standard error.
fn run_on_file(rt: &(impl Files + Print + Eprint), name: &str, job: &mut impl Job) {
    match File::open(rt, name) {
        Ok(mut file) => job.run(rt, &mut file, name),
        Err(error) => fail(rt, name, error),
    }
}

// Runs a job on what an argument names: a dash stands for standard input.
fn run_on_argument(
    rt: &(impl Env + Files + Input + Print + Eprint),
    index: usize,
    job: &mut impl Job,
) {
    let mut path = [0u8; PATH_BYTES];
    match argument(rt, index, &mut path) {
        Ok("-") => run_on_standard_input(rt, job),
        Ok(name) => run_on_file(rt, name, job),
        Err(error) => fail(rt, "argument", error),
    }
}

// Runs a job on what the arguments name, one after the other, the program's own name apart, or on standard input where there is none.
pub fn run(rt: &(impl Env + Files + Input + Print + Eprint), job: &mut impl Job) {
    let count = argument_count(rt);
    if count < 2 {
        run_on_standard_input(rt, job);
        return;
    }
    for index in 1..count {
        run_on_argument(rt, index, job);
    }
}
