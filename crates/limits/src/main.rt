// Tries `apply_edit_in`, and with it `apply_edit`, and `set_cursor` at their limits: reads trials from standard input, and prints what came of each. The
// forms of a line, with all numbers hexadecimal and in upper case:
//     # COMMENT   passed over, as an empty line is
//     : LABEL     names the trial that follows
//     NUMBERS     a trial, as up to 22 numbers, of which the missing ones are 0:
//         0       the kind: 0 InsertChar, 1 InsertStr, 2 DeleteRange Char, 3 Line, 4 Block, 5 JoinLines without and
//                 6 with a space, 7 SplitLines, 8 Replace, 9 InsertBlock, A DeleteBlockChunks; B sets the cursor and reads 1-6, 20, 21 alone
//         1-4     the length of the text's buffer, its used length, the character that fills the whole buffer, and the
//                 period: each period-th place of the buffer is LF, none if it is 0
//         5-8     row, column, second row or a join's count, second column
//         9-10    the payload's length and its character
//         11-16   the first list's length, its items' value and its last item's; then the second list's
//         17-19   the lengths of the slices for the inverse's payload, first and second list
//         20-21   the change counter's high and low 32 bits
// Printed are the refusal's number and whether anything changed; or the view that was lent, the inverse's kind and how much was recorded,
// in decimal, then in hexadecimal what the text and the record hold where they are short, and last, in decimal, the
// inverse's own numbers and a checksum of all that was lent to be written.
#![tactic(auto)]

mod calls;
mod show;
mod trial;

use crate::calls::run;
use crate::trial::Trial;
use lines::{PassingOver, is_passed_over, read_text};
use std::io;

fn try_line(out: &impl Print, label: &[u8], line: &[u8]) -> io::Result<()> {
    out.write_all(label)?;
    print!(out; ": ")?;
    match Trial::read(line) {
        Some(trial) => run(out, trial),
        None => println!(out; "malformed"),
    }
}

fn try_lines(out: &impl Print, text: &[u8]) -> io::Result<()> {
    let mut label: &[u8] = &[];
    for line in text.split(|x| *x == b'\n') {
        if line.starts_with(b":") {
            label = line.get(2..).unwrap_or_default();
        } else if !is_passed_over(line) {
            try_line(out, label, line)?;
        }
    }
    Ok(())
}

fn main(rt: HostRuntime) -> io::Result<()> {
    let out = PassingOver(&rt);
    let mut room = [0; 65_536];
    match read_text(rt.stdin(), &mut room) {
        Some(text) => try_lines(&out, text),
        None => println!(out; "the input is too long"),
    }
}
