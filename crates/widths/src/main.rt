// Holds the box test to EastAsianWidth.txt: reads that file's lines of W and F from standard input, asks `fit` about each of their code
// points, and prints how many are wide. The forms of a line, up to its first blank, with the numbers hexadecimal and in upper case and
// a VALUE of W or F:
//     POINT;VALUE         one code point
//     FIRST..LAST;VALUE   the code points from the first to the last
// Printed for each line are what stands before that blank and how many of the code points are wide, in decimal, or `malformed` for a line
// of any other form, with its last code point before its first, or with one beyond 10FFFF. Then come the number of lines and of the wide
// code points in them, and last the number of scalar values and of the wide ones among all of these.
#![tactic(auto)]

mod entry;

ghost use Rattle.std.specs.Prelude.{◌≤◌, IfOk};

use entry::{cut, read_entry};
use fit::box_fit;
use lines::{PassingOver, read_text};
use std::io;
use std::ops::Range;

// Whether a character leaves a box of one cell by itself.
fn is_wide(point: u32) -> bool {
    matches!(box_fit(&[point], 1, 1, 1), Ok(Some(_)))
}

fn count_wide(points: Range<u32>) -> usize
    ensures { result ≤ points.end }
{
    points.filter(|x| is_wide(*x)).count()
}

// Prints a line, and answers how many of its code points are wide: none, if it is malformed.
fn print_line(out: &impl Print, line: &[u8]) -> io::Result<usize>
    ensures { IfOk result (λ wide. wide ≤ 0x110000) }
{
    let (head, _) = cut(line, b' ');
    out.write_all(head)?;
    match read_entry(head) {
        Some(points) => {
            let wide = count_wide(points);
            println!(out; " {wide}")?;
            Ok(wide)
        }
        None => {
            println!(out; " malformed")?;
            Ok(0)
        }
    }
}

fn print_lines(out: &impl Print, text: &[u8]) -> io::Result<()> {
    let mut count = 0usize;
    let mut wide = 0usize;
    for line in text.split_inclusive(|x| *x == b'\n') {
        let line = line.strip_suffix(b"\n").unwrap_or(line);
        count = count.saturating_add(1);
        wide = wide.saturating_add(print_line(out, line)?);
    }
    println!(out; "wide in {count} lines: {wide}")
}

// The scalar values are the code points before the surrogates and those behind them.
fn print_scalars(out: &impl Print) -> io::Result<()> {
    let low = 0..0xD800;
    let high = 0xE000..0x110000;
    let count = low.len() + high.len();
    let wide = count_wide(low) + count_wide(high);
    println!(out; "wide of {count} scalars: {wide}")
}

fn main(rt: HostRuntime) -> io::Result<()> {
    let out = PassingOver(&rt);
    let mut room = [0; 65_536];
    match read_text(rt.stdin(), &mut room) {
        Some(text) => {
            print_lines(&out, text)?;
            print_scalars(&out)
        }
        None => println!(out; "the input is too long"),
    }
}
