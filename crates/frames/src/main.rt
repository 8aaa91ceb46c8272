// Runs scripts and compares. Standard input has their lines, and those that they are to print:
//     > a line of the script       ! its last line, without LF
//     < a line that it prints      = the end: the script is run
// A line is made of words, put together: digits as they stand, WORD*COUNT for a word so many times over, and ~ before two digits for the byte
// of that number. One that is empty or starts with # is passed over.
#![tactic(auto)]

mod buffer;
mod words;

use crate::buffer::{Buffer, ROOM};
use lines::{PassingOver, read_text};
use script::run_script;
use std::io;

fn prints(script: &[u8], output: &[u8]) -> bool {
    let mut out = [0; ROOM];
    match run_script(script, &mut out) {
        Ok(count) => out.get(..count) == Some(output),
        Err(_) => false,
    }
}

fn take_lines(out: &impl Print, input: &[u8]) -> io::Result<()> {
    let mut script = Buffer::new();
    let mut output = Buffer::new();
    let mut count = 0u64;
    let mut same = 0u64;
    for line in input.split(|x| *x == b'\n') {
        match line {
            [] | [b'#', ..] => {}
            [b'>', line @ ..] => script.push_line(line),
            [b'!', line @ ..] => script.push_words(line),
            [b'<', line @ ..] => output.push_line(line),
            _ => {
                count = count.saturating_add(1);
                if prints(script.as_slice(), output.as_slice()) {
                    same = same.saturating_add(1);
                } else {
                    println!(out; "script {count} prints something else")?;
                }
                script.clear();
                output.clear();
            }
        }
    }
    println!(out; "{same} of {count} scripts print what stands below them")
}

fn main(rt: HostRuntime) -> io::Result<()> {
    let out = PassingOver(&rt);
    let mut room = [0; 65_536];
    match read_text(rt.stdin(), &mut room) {
        Some(input) => take_lines(&out, input),
        None => println!(out; "the input is too long"),
    }
}
