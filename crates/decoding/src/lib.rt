// Octets to scalars, whole slices of them.
#![tactic(auto)]

ghost use Rattle.std.specs.Prelude.{◌≡◌, true, ℕ, ◌+◌, ◌≤◌, ◌<◌, eqb, length, drop, get_or};
ghost use Rattle.std.proofs.Math.Seq.{paste};
ghost use Rattle.utf8.specs.Rfc3629.{UTF8-3, taken};
ghost use Rattle.utf8.specs.Reading.{reading};
ghost use Rattle.utf8.specs.Answers.{paper_scalar_count, paper_decoded};
ghost use Rattle.promise.specs.Slices.{over};
ghost use Rattle.utf8.specs.Calls.{outcome, scalars_of, Fillable, counted, decoded};

use sequences::{
    is_three, leading_ones, number_of_four, number_of_three, number_of_two, read_scalar,
};
use utf8::{BadUtf8, ByteOffset, DecodeError};

// Whether the sixteen octets from `start` on are ASCII. Looks at every one: without an early exit the loop is vectorised.
fn is_block(bytes: &[u8], start: usize) -> bool
    requires { start + 16 ≤ length bytes.now }
    ensures { result ≡ true → (k : ℕ) → k < 16 → get_or bytes.now (start + k) 0 ≤ 0x7F }
{
    let mut all = true;
    for x in &bytes[start..start + 16] {
        all &= *x <= 0x7F;
    }
    all
}

// Whether sixteen octets that are ASCII start there. Only every sixteenth place is asked, so that a short run is not tried
// again at each of its octets.
fn starts_block(bytes: &[u8], start: usize) -> bool
    requires { start < length bytes.now }
    ensures { result ≡ true → (start + 16 ≤ length bytes.now) × ((k : ℕ) → k < 16 → get_or bytes.now (start + k) 0 ≤ 0x7F) }
{
    if (start % 16 != 0) | (bytes.len() - start < 16) {
        return false;
    }
    is_block(bytes, start)
}

// Sixteen octets as scalars.
fn widen_block(bytes: &[u8], start: usize, out: &mut [u32], count: usize)
    requires { (start + 16 ≤ length bytes.now) × (count + 16 ≤ length out.old) }
    ensures { out.new ≡ paste out.old count (drop start bytes.now) 16 }
{
    for (k, x) in bytes[start..start + 16].iter().enumerate() {
        out[count + k] = u32::from(*x);
    }
}

// Whether three octets of UTF8-3 stand at `start`.
fn starts_three(bytes: &[u8], start: usize) -> bool
    requires { start < length bytes.now }
    ensures { result ≡ eqb (taken UTF8-3 (drop start bytes.now)) 3 }
{
    match &bytes[start..] {
        [a, b, c, ..] => is_three(*a, *b, *c),
        _ => false,
    }
}

// How many scalars the bytes hold. By its lead's leading one bits a sequence of one or three octets is read here, and any other by
// `read_scalar`.
pub fn count_scalars(bytes: &[u8]) -> Result<usize, BadUtf8>
    ensures { paper_scalar_count result ≡ counted (reading bytes.now) }
{
    let mut count = 0;
    let mut at = ByteOffset(0);
    // A cursor: each turn moves it by what it read.
    while at.0 < bytes.len() {
        let start = at.0;
        let ones = leading_ones(bytes[start]);
        if ones == 0 {
            if starts_block(bytes, start) {
                at = ByteOffset(start + 16);
                count += 16;
            } else {
                at = ByteOffset(start + 1);
                count += 1;
            }
        } else if ones == 3 {
            if !starts_three(bytes, start) {
                return Err(BadUtf8(ByteOffset(start)));
            }
            at = ByteOffset(start + 3);
            count += 1;
        } else {
            at = read_scalar(bytes, at)?.next;
            count += 1;
        }
    }
    Ok(count)
}

// The scalars of well-formed bytes, to the front of a slice that has room for them. The lead's leading one bits alone tell how many
// octets stand there: none for one, and else as many as they are. A single one leads no sequence and does not come, so that at most one
// is none. (They are asked for by order: a chain of equalities is slower.)
fn fill_scalars(bytes: &[u8], out: &mut [u32])
    requires { Fillable (reading bytes.now) (length out.old) }
    ensures { out.new ≡ over (scalars_of (reading bytes.now)) out.old }
{
    let mut count = 0;
    let mut at = ByteOffset(0);
    // A cursor: each turn moves it by what it read.
    while at.0 < bytes.len() {
        let start = at.0;
        let lead = bytes[start];
        let ones = leading_ones(lead);
        if ones <= 1 {
            if starts_block(bytes, start) {
                widen_block(bytes, start, out, count);
                at = ByteOffset(start + 16);
                count += 16;
            } else {
                out[count] = u32::from(lead);
                at = ByteOffset(start + 1);
                count += 1;
            }
        } else if ones <= 2 {
            out[count] = number_of_two(lead, bytes[start + 1]);
            at = ByteOffset(start + 2);
            count += 1;
        } else if ones <= 3 {
            out[count] = number_of_three(lead, bytes[start + 1], bytes[start + 2]);
            at = ByteOffset(start + 3);
            count += 1;
        } else {
            out[count] = number_of_four(lead, bytes[start + 1], bytes[start + 2], bytes[start + 3]);
            at = ByteOffset(start + 4);
            count += 1;
        }
    }
}

// All the scalars of the bytes, to the front of `out`.
pub fn decode(bytes: &[u8], out: &mut [u32]) -> Result<usize, DecodeError>
    ensures { outcome (paper_decoded result) out.new ≡ decoded (reading bytes.now) out.old }
{
    let scalars = count_scalars(bytes)?;
    if out.len() < scalars {
        return Err(DecodeError::NoRoom);
    }
    fill_scalars(bytes, out);
    Ok(scalars)
}
