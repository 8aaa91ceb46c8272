use crate::trial::{Form, gives};
use lines::read_numbers;
use utf8::{ByteOffset, DecodeError, EncodeError};

// The most numbers on a side of a line: fewer than a trial has room for.
const MOST: usize = 63;

const ROOM: usize = 64;

// The numbers as bytes, at the front of `out`: none where one is no byte, or has no room.
fn narrow<'a>(numbers: &[u32], out: &'a mut [u8]) -> Option<&'a [u8]> {
    let bytes = out.get_mut(..numbers.len())?;
    for (byte, number) in bytes.iter_mut().zip(numbers) {
        *byte = u8::try_from(*number).ok()?;
    }
    Some(bytes)
}

// With room to spare, with just enough, and with one place less than that.
fn comes_out<T: Form>(from: &[T::Other], written: &[T], out: &mut [T]) -> bool {
    let count = written.len();
    let room = out.len();
    gives(from, out, room, Ok(count), written)
        && gives(from, out, count, Ok(count), written)
        && (count == 0 || gives(from, out, count - 1, Err(T::NO_ROOM), &[]))
}

// A refusal for what the input holds comes before one for want of room.
fn is_refused<T: Form>(from: &[T::Other], why: T::Error, out: &mut [T]) -> bool {
    let room = out.len();
    gives(from, out, room, Err(why), &[]) && gives(from, out, 0, Err(why), &[])
}

// Whether a vector's line is well formed, and what it says is so.
pub(crate) fn holds(line: &[u8]) -> bool {
    stands(line).unwrap_or(false)
}

fn stands(line: &[u8]) -> Option<bool> {
    let mut left = [0; MOST];
    let mut right = [0; MOST];
    let mut bytes = [0; MOST];
    let at = line.iter().position(|x| b"=!?".contains(x))?;
    let left = read_numbers(&line[..at], &mut left)?;
    let right = read_numbers(&line[at + 1..], &mut right)?;
    let bytes = narrow(left, &mut bytes)?;
    Some(judge(line[at], bytes, right))
}

fn judge(mark: u8, left: &[u8], right: &[u32]) -> bool {
    let mut scalars = [0; ROOM];
    let mut bytes = [0; ROOM];
    match (mark, right) {
        (b'=', _) => comes_out(left, right, &mut scalars) && comes_out(right, left, &mut bytes),
        (b'!', [at]) => is_refused(
            left,
            DecodeError::BadUtf8(ByteOffset(*at as usize)),
            &mut scalars,
        ),
        (b'?', _) => left.is_empty() && is_refused(right, EncodeError::BadText, &mut bytes),
        _ => false,
    }
}
