// Replays edits. Standard input has lines of script frames, a text and below it an edit of that text. For each edit this prints what it
// answers and leaves: the cursor and the change counter in decimal, the inverse's line, and the line of the text; or the refusal's number.
// A line that is empty or starts with # is passed over.
#![tactic(auto)]

use edit::{Applied, Refusal, View};
use framed::apply_frame;
use lines::{PassingOver, is_passed_over, read_text};
use reader::{FrameRead, read};
use std::io;
use text::{Col, Position, Row};
use writer::{write_edit, write_text};

const TEXT_ROOM: usize = 4_096;

const LIST_ROOM: usize = 256;

const LINE_ROOM: usize = 36_864;

const START: Position = Position {
    row: Row(0),
    col: Col(0),
};

// The digits at the front of a line, none where they were refused.
fn digits(written: Result<usize, Refusal>, line: &[u8]) -> &[u8] {
    match written {
        Ok(count) => line.get(..count).unwrap_or_default(),
        Err(_) => &[],
    }
}

fn print_line(out: &impl Print, written: Result<usize, Refusal>, line: &[u8]) -> io::Result<()> {
    out.write_all(digits(written, line))?;
    println!(out)
}

fn print_inverse(
    out: &impl Print,
    done: Applied,
    payload: &[u32],
    first: &[u32],
    second: &[u32],
    line: &mut [u8],
) -> io::Result<()> {
    let parts = (
        payload.get(..done.payload),
        first.get(..done.first),
        second.get(..done.second),
    );
    let (Some(payload), Some(first), Some(second)) = parts else {
        return Ok(());
    };
    let written = write_edit(done.inverse, payload, first, second, line);
    print_line(out, written, line)
}

fn print_text(out: &impl Print, text: &[u32], used: usize, line: &mut [u8]) -> io::Result<()> {
    let Some(text) = text.get(..used) else {
        return Ok(());
    };
    let written = write_text(text, line);
    print_line(out, written, line)
}

fn replay(
    out: &impl Print,
    edit: &[u8],
    text: &mut [u32],
    used: usize,
    line: &mut [u8],
) -> io::Result<()> {
    let view = View {
        used,
        cursor: START,
        changes: 0,
    };
    let mut payload = [0; TEXT_ROOM];
    let mut first = [0; LIST_ROOM];
    let mut second = [0; LIST_ROOM];
    let answer = apply_frame(text, view, edit, &mut payload, &mut first, &mut second);
    match answer {
        Err(why) => println!(out; "refused {}", why.number()),
        Ok(done) => {
            let View {
                used,
                cursor: Position { row, col },
                changes,
            } = done.view;
            println!(out; "cursor {} {} changes {changes}", row.0, col.0)?;
            print_inverse(out, done, &payload, &first, &second, line)?;
            print_text(out, text, used, line)
        }
    }
}

// How long the text is that a frame loads.
fn load(frame: &[u8], text: &mut [u32]) -> usize {
    let mut first = [0; 1];
    let mut second = [0; 1];
    match read(frame, text, &mut first, &mut second) {
        Ok(FrameRead::Text(count)) => count,
        Ok(FrameRead::Mark(_) | FrameRead::Edit { .. }) | Err(_) => 0,
    }
}

fn take_lines(out: &impl Print, input: &[u8], text: &mut [u32], line: &mut [u8]) -> io::Result<()> {
    let mut used = 0;
    for frame in input.split(|x| *x == b'\n') {
        if frame.starts_with(b"01") {
            used = load(frame, text);
        } else if !is_passed_over(frame) {
            replay(out, frame, text, used, line)?;
        }
    }
    Ok(())
}

fn main(rt: HostRuntime) -> io::Result<()> {
    let out = PassingOver(&rt);
    let mut room = [0; 65_536];
    let mut text = [0; TEXT_ROOM];
    let mut line = [0; LINE_ROOM];
    match read_text(rt.stdin(), &mut room) {
        Some(input) => take_lines(&out, input, &mut text, &mut line),
        None => println!(out; "the input is too long"),
    }
}
