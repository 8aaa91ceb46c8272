// The strings of a frame: one alone, or a block's, each behind its length.
ghost use Rattle.std.specs.Prelude.{◌≡◌, true, ℕ, ◌-◌, ◌≤◌, length, drop};
ghost use mathlib.Core.List.{List, [], ◌∷◌, map, flatten};
ghost use Rattle.std.proofs.Math.Seq.{paste};
ghost use Rattle.promise.specs.Slices.{over};
ghost use Rattle.utf8.specs.Reading.{reading};
ghost use Rattle.utf8.specs.Answers.{paper_decoded};
ghost use Rattle.utf8.specs.Calls.{outcome, scalars_of, Fillable};
ghost use Rattle.frame.specs.Forms.{strings_in, is_cut};
ghost use Rattle.frame.specs.Reads.{contents, first_list, text_of, edit_of};
ghost use Rattle.reader.specs.Calls.{paper_read, filled, read_into, chars_into, strings_of, chars_of, paper_tally, tallied, WellFormed};

use crate::{FrameRead, Tally};
use decoding::{count_scalars, decode};
use edit::{Edit, Refusal};
use frame::number_at;
use utf8::{BadUtf8, ByteOffset, DecodeError};

// The characters from byte `from` on. The offset of a bad sequence is counted from the first byte.
fn decode_from(bytes: &[u8], from: usize, payload: &mut [u32]) -> Result<usize, DecodeError>
    requires { from ≤ length bytes.now }
    ensures { outcome (paper_decoded result) payload.new ≡ chars_into (contents from (drop from bytes.now ∷ [])) payload.old }
{
    match decode(&bytes[from..], payload) {
        Ok(count) => Ok(count),
        Err(DecodeError::BadUtf8(at)) => Err(DecodeError::BadUtf8(ByteOffset(from + at.0))),
        Err(DecodeError::NoRoom) => Err(DecodeError::NoRoom),
    }
}

// A text's characters, which start behind the first byte.
pub fn read_text(bytes: &[u8], payload: &mut [u32]) -> Result<FrameRead, Refusal>
    requires { 1 ≤ length bytes.now }
    ensures { (f s : List ℕ) → filled (paper_read result) payload.new f s ≡ read_into (text_of (contents 1 (drop 1 bytes.now ∷ []))) payload.old f s }
{
    let count = decode_from(bytes, 1, payload)?;
    Ok(FrameRead::Text(count))
}

// The characters of an edit that has one string and no lists.
pub fn read_string(
    edit: Edit,
    bytes: &[u8],
    from: usize,
    payload: &mut [u32],
) -> Result<FrameRead, Refusal>
    requires { (from ≤ length bytes.now) × ((xs : List (List ℕ)) → first_list edit xs [] ≡ []) }
    ensures { (f s : List ℕ) → filled (paper_read result) payload.new f s ≡ read_into (edit_of edit [] [] (contents from (drop from bytes.now ∷ []))) payload.old f s }
{
    let count = decode_from(bytes, from, payload)?;
    Ok(FrameRead::Edit {
        edit,
        payload: count,
        first: 0,
        second: 0,
    })
}

// The strings of a block, which start at the frame's byte 9, counted; or where the first bad sequence stands in the frame.
fn count_chunks(strings: &[u8]) -> Result<Tally, BadUtf8>
    requires { is_cut (strings_in strings.now) ≡ true }
    ensures { paper_tally result ≡ tallied (contents 13 (strings_of (strings_in strings.now))) }
{
    let mut at = 0;
    let mut chunks = 0;
    let mut chars = 0;
    // A cursor: each turn moves it by what it read.
    while at < strings.len() {
        let length = number_at(strings, ByteOffset(at)) as usize;
        let start = at + 4;
        let end = start + length;
        let counted = count_scalars(&strings[start..end]);
        match counted {
            Err(bad) => {
                return Err(BadUtf8(ByteOffset(start + 9 + bad.0.0)));
            }
            Ok(count) => {
                chars += count;
                chunks += 1;
                at = end;
            }
        }
    }
    Ok(Tally { chunks, chars })
}

// How many characters a well-formed string has. They are read to the payload from `from` on.
fn read_behind(string: &[u8], payload: &mut [u32], from: usize) -> usize
    requires { (from ≤ length payload.old) × Fillable (reading string.now) (length payload.old - from) }
    ensures { (result ≡ length (scalars_of (reading string.now))) × (payload.new ≡ paste payload.old from (scalars_of (reading string.now)) (length (scalars_of (reading string.now)))) }
{
    decode(string, &mut payload[from..]).unwrap()
}

// The characters of a block's strings one after another, and how many each has.
fn fill_chunks(strings: &[u8], payload: &mut [u32], first: &mut [u32])
    requires { (is_cut (strings_in strings.now) ≡ true) × WellFormed (contents 13 (strings_of (strings_in strings.now))) (length payload.old) (length first.old) }
    ensures { (payload.new ≡ over (flatten (chars_of (contents 13 (strings_of (strings_in strings.now))))) payload.old) × (first.new ≡ over (map length (chars_of (contents 13 (strings_of (strings_in strings.now))))) first.old) }
{
    let mut at = 0;
    let mut chunks = 0;
    let mut chars = 0;
    // A cursor: each turn moves it by what it read.
    while at < strings.len() {
        let length = number_at(strings, ByteOffset(at)) as usize;
        let start = at + 4;
        let end = start + length;
        let count = read_behind(&strings[start..end], payload, chars);
        first[chunks] = count as u32;
        chars += count;
        chunks += 1;
        at = end;
    }
}

// A block's strings.
pub fn read_chunks(
    edit: Edit,
    strings: &[u8],
    payload: &mut [u32],
    first: &mut [u32],
) -> Result<FrameRead, Refusal>
    requires { (is_cut (strings_in strings.now) ≡ true) × ((xs : List (List ℕ)) → first_list edit xs [] ≡ map length xs) }
    ensures { (s : List ℕ) → filled (paper_read result) payload.new first.new s ≡ read_into (edit_of edit [] [] (contents 13 (strings_of (strings_in strings.now)))) payload.old first.old s }
{
    let tally = count_chunks(strings)?;
    let chunks = tally.chunks;
    let chars = tally.chars;
    if payload.len() < chars {
        return Err(Refusal::NoRoom);
    }
    if first.len() < chunks {
        return Err(Refusal::NoRoom);
    }
    fill_chunks(strings, payload, first);
    Ok(FrameRead::Edit {
        edit,
        payload: chars,
        first: chunks,
        second: 0,
    })
}
