// Standard input and output, whatever they are: a call that could not be done yet is made again.
ghost use Rattle.std.specs.Prelude.{◌≤◌, length, IfOk};
ghost use Rattle.scriptrun.specs.Runs.{Prints};

use std::fmt::InlineText;
use std::io::{Eprint, ErrorKind, Stderr, Stdin, Stdout, Write};
use std::{io, thread};

#[derive(Clone, Copy)]
pub struct Streams {
    pub input: Stdin,
    pub output: Stdout,
    pub errors: Stderr,
}

// Whether the call that failed is to be made again: a signal came, or nothing could be read or written yet. Others are let run first.
pub fn is_to_try_again(error: io::Error) -> bool {
    match error.kind() {
        ErrorKind::Interrupted => true,
        ErrorKind::WouldBlock => {
            thread::yield_now();
            true
        }
        _ => false,
    }
}

// A line on standard error: what failed, and the system's words for why, without the number that std puts behind them.
pub fn fail(streams: Streams, what: &str, error: io::Error) {
    let text = InlineText::<128>::of(error);
    let whole = text.as_str();
    let why = match whole.split_once(" (os error ") {
        Some((words, _)) => words,
        None => whole,
    };
    let _ = eprintln!(streams.errors; "scriptrun: {what}: {why}");
}

// How many bytes a write took, none where it is to be made again.
fn write_some(streams: Streams, bytes: &[u8]) -> io::Result<usize>
    ensures { IfOk result (λ count. count ≤ length bytes.now) }
{
    let mut output = streams.output;
    match output.write(bytes) {
        Err(error) if is_to_try_again(error) => Ok(0),
        taken => taken,
    }
}

// Writes all of them, and answers whether that went well. The loop has as many turns as that of `read_all`.
fn write_on(streams: Streams, bytes: &[u8]) -> bool {
    let mut done = 0;
    let mut failure = io::Error::from(ErrorKind::TimedOut);
    for _ in 0..u64::MAX {
        if bytes.len() <= done {
            return true;
        }
        match write_some(streams, &bytes[done..]) {
            Ok(count) => done += count,
            Err(error) => {
                failure = error;
                break;
            }
        }
    }
    fail(streams, "standard output", failure);
    false
}

// Writes what the script printed, unless something has failed before; whether nothing has.
pub fn print(streams: Streams, bytes: &[u8], sound: bool) -> bool
    requires { Prints bytes.now }
{
    if !sound {
        return false;
    }
    write_on(streams, bytes)
}
