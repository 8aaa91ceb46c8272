// Reads vectors of UTF-8 from standard input, tries each on `decoding` and `encoding`, and prints how many of each group came out as
// their lines say. The forms of a line, with all numbers hexadecimal and in upper case:
//     # COMMENT           passed over, as an empty line is
//     : TITLE             starts a group
//     BYTES = SCALARS     the bytes decode to the scalars, and the scalars encode to the bytes
//     BYTES ! OFFSET      the bytes are refused, for what starts at the offset
//     ? SCALARS           the scalars are refused
// A line of any other form counts as a vector that did not come out.
#![tactic(auto)]

mod trial;
mod vector;

ghost use Rattle.std.specs.Prelude.{◌≤◌};

use lines::{PassingOver, read_text};
use std::{fmt, io};

#[derive(Clone, Copy, Default)]
struct Tally {
    passed: usize,
    count: usize,
}

impl Tally {
    fn add(&mut self, passes: bool)
        ensures { self.old.passed ≤ self.old.count → self.new.passed ≤ self.new.count }
    {
        self.passed = self.passed.saturating_add(usize::from(passes));
        self.count = self.count.saturating_add(1);
    }
}

impl fmt::Display for Tally {
    fn fmt<W: fmt::Write>(&self, f: &mut fmt::Formatter<W>) -> fmt::Result {
        let Tally { passed, count } = *self;
        write!(f, "{passed} of {count}")
    }
}

// What stands before the first title is tried too, and has no line of its own.
fn print_group(out: &impl Print, title: Option<&[u8]>, tally: Tally) -> io::Result<()> {
    if let Some(title) = title {
        out.write_all(title)?;
        println!(out; ": {tally}")?;
    }
    Ok(())
}

fn try_groups(out: &impl Print, text: &[u8]) -> io::Result<()> {
    let mut title = None;
    let mut group = Tally::default();
    let mut total = Tally::default();
    for line in text.split(|x| *x == b'\n') {
        match line {
            [] | [b'#', ..] => {}
            [b':', ..] => {
                print_group(out, title, group)?;
                title = Some(line.get(2..).unwrap_or_default());
                group = Tally::default();
            }
            _ => {
                let passes = vector::holds(line);
                group.add(passes);
                total.add(passes);
            }
        }
    }
    print_group(out, title, group)?;
    println!(out; "total: {total}")
}

fn main(rt: HostRuntime) -> io::Result<()> {
    let out = PassingOver(&rt);
    let mut room = [0; 32_768];
    match read_text(rt.stdin(), &mut room) {
        Some(text) => try_groups(&out, text),
        None => println!(out; "the input is too long"),
    }
}
