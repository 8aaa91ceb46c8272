ghost use Rattle.std.specs.Prelude.{◌≤◌, length, IfSome};

use lines::read_numbers;
use std::ops::Range;

// What stands before the first `mark`, and the rest from that on.
pub(crate) fn cut(text: &[u8], mark: u8) -> (&[u8], &[u8])
    ensures { length result.0.now ≤ length text.now }
{
    let at = text.iter().position(|x| *x == mark).unwrap_or(text.len());
    text.split_at(at)
}

fn read_point(word: &[u8]) -> Option<u32> {
    let mut numbers = [0; 1];
    match read_numbers(word, &mut numbers)? {
        [point] => Some(*point),
        _ => None,
    }
}

fn read_points(points: &[u8]) -> Option<Range<u32>>
    ensures { IfSome result (λ points. points.end ≤ 0x110000) }
{
    let (first, rest) = cut(points, b'.');
    let first = read_point(first)?;
    let last = match rest {
        [] => first,
        [_, b'.', last @ ..] => read_point(last)?,
        _ => return None,
    };
    if first <= last && last <= 0x10FFFF {
        Some(first..last + 1)
    } else {
        None
    }
}

// The code points of a line, by what stands before its first blank: none, if it is malformed.
pub(crate) fn read_entry(head: &[u8]) -> Option<Range<u32>>
    ensures { IfSome result (λ points. points.end ≤ 0x110000) }
{
    match cut(head, b';') {
        (points, b";W" | b";F") => read_points(points),
        _ => None,
    }
}
