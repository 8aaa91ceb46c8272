// The lists of a frame as bytes, to the front of a slice that has room for them.
ghost use Rattle.std.specs.Prelude.{true, [], ◌∷◌, ◌++◌, ◌≡◌, ◌+◌, ◌*◌, ◌≤◌, leb, length};
ghost use Rattle.std.proofs.Math.Seq.{paste};
ghost use Rattle.promise.specs.Slices.{over};
ghost use Rattle.text.specs.Text.{all};
ghost use Rattle.utf8.specs.Reading.{all_scalar, writing};
ghost use Rattle.edit.specs.Edits.{pieces};
ghost use Rattle.edit.specs.Refusals.{sum};
ghost use Rattle.frame.specs.Numbers.{number};
ghost use Rattle.frame.specs.Format.{column_bytes, width_bytes, chunk_bytes};

use crate::puts::{put_number, put_pair};
use encoding::{count_octets, fill_octets};
use utf8::ByteOffset;

// A column with its flag.
fn put_column(bytes: &mut [u8], at: ByteOffset, col: u32, flag: u32)
    requires { (at.0 + 5 ≤ length bytes.old) × (flag ≤ 1) }
    ensures { bytes.new ≡ paste bytes.old at.0 (number col ++ (flag ∷ [])) 5 }
{
    let start = at.0;
    put_number(bytes, at, col);
    bytes[start + 4] = flag as u8;
}

pub fn put_columns(bytes: &mut [u8], cols: &[u32], flags: &[u32])
    requires { (length cols.now ≡ length flags.now) × (all (λ b. leb b 1) flags.now ≡ true) × (5 * length cols.now ≤ length bytes.old) }
    ensures { bytes.new ≡ over (column_bytes cols.now flags.now) bytes.old }
{
    for (i, (col, flag)) in cols.iter().zip(flags).enumerate() {
        put_column(bytes, ByteOffset(5 * i), *col, *flag);
    }
}

pub fn put_widths(bytes: &mut [u8], widths: &[u32], pads: &[u32])
    requires { (length widths.now ≡ length pads.now) × (8 * length widths.now ≤ length bytes.old) }
    ensures { bytes.new ≡ over (width_bytes widths.now pads.now) bytes.old }
{
    for (i, (width, pad)) in widths.iter().zip(pads).enumerate() {
        put_pair(bytes, ByteOffset(8 * i), *width, *pad);
    }
}

// A chunk with the length of its UTF-8 before it; the place behind it.
fn put_chunk(bytes: &mut [u8], at: ByteOffset, chars: &[u32]) -> ByteOffset
    requires { (all_scalar chars.now ≡ true) × (length (writing chars.now) ≤ 18_432) × (at.0 + (4 + length (writing chars.now)) ≤ length bytes.old) }
    ensures { (bytes.new ≡ paste bytes.old at.0 (number (length (writing chars.now)) ++ writing chars.now) (4 + length (writing chars.now))) × (result.0 ≡ at.0 + (4 + length (writing chars.now))) }
{
    let octets = count_octets(chars).unwrap();
    let start = at.0;
    put_number(bytes, at, octets as u32);
    fill_octets(chars, &mut bytes[start + 4..]);
    ByteOffset(start + 4 + octets)
}

pub fn put_chunks(bytes: &mut [u8], payload: &[u32], lens: &[u32])
    requires { (sum lens.now ≡ length payload.now) × (all_scalar payload.now ≡ true) × (4 * length lens.now + length (writing payload.now) ≤ 18_432) × (4 * length lens.now + length (writing payload.now) ≤ length bytes.old) }
    ensures { bytes.new ≡ over (chunk_bytes (pieces lens.now payload.now)) bytes.old }
{
    let mut at = ByteOffset(0);
    let mut from = 0;
    for len in lens {
        let end = from + *len as usize;
        at = put_chunk(bytes, at, &payload[from..end]);
        from = end;
    }
}
