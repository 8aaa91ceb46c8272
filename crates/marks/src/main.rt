// Replays shifts, merges and row spans: reads a case from each line of standard input, as hexadecimal numbers in upper case, and
// prints what the port answers, in decimal. A line that is empty or starts
// with # is passed over.
//     1 a shift     the edit's kind and its two positions as `trials` has them, a selection's anchor and head, the lengths of text,
//                   payload and two lists, and these; printed is where the anchor goes, then where the selection does
//     2 a merge     the numbers of the selections; printed are the count and the numbers of the merged ones
//     3 a selection its kind (0 Char, 1 Line, 2 Block), anchor and head, whether it is extended and to where, and a row; printed are
//                   its ends, its rows, and what it covers of that row
#![tactic(auto)]

mod case;
mod replay;

use crate::case::Case;
use crate::replay::replay;
use lines::{PassingOver, is_passed_over, read_numbers, read_text};
use std::io;

// The most numbers of a line.
const NUMBERS: usize = 64;

fn replay_line(out: &impl Print, line: &[u8]) -> io::Result<()> {
    let mut numbers = [0; NUMBERS];
    match read_numbers(line, &mut numbers).and_then(Case::of) {
        Some(case) => replay(out, case),
        None => println!(out; "malformed"),
    }
}

fn replay_lines(out: &impl Print, text: &[u8]) -> io::Result<()> {
    for line in text.split(|x| *x == b'\n') {
        if !is_passed_over(line) {
            replay_line(out, line)?;
        }
    }
    Ok(())
}

fn main(rt: HostRuntime) -> io::Result<()> {
    let out = PassingOver(&rt);
    let mut room = [0; 65_536];
    match read_text(rt.stdin(), &mut room) {
        Some(text) => replay_lines(&out, text),
        None => println!(out; "the input is too long"),
    }
}
