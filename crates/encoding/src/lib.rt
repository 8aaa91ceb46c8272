// Scalars to octets: one scalar, and whole slices of them.
#![tactic(auto)]

ghost use Rattle.std.specs.Prelude.{◌≡◌, true, ◌+◌, ◌/◌, ◌%◌, ◌≤◌, length};
ghost use Rattle.std.proofs.lemmas.List.Edits.{sets};
ghost use Rattle.utf8.specs.Rfc3629.{scalar};
ghost use Rattle.utf8.specs.Reading.{all_scalar, writing};
ghost use Rattle.utf8.specs.Answers.{octets_of, paper_sequence, paper_octet_count, paper_encoded};
ghost use Rattle.promise.specs.Slices.{over};
ghost use Rattle.utf8.specs.Calls.{outcome, sequence_of, octet_count, encoded};

use utf8::{BadText, ByteOffset, EncodeError, Sequence};

fn is_scalar(value: u32) -> bool
    ensures { result ≡ scalar value }
{
    (value <= 0xD7FF) | ((0xE000 <= value) & (value <= 0x10FFFF))
}

// A tail octet with the lowest six bits.
fn tail(bits: u32) -> u8
    ensures { result ≡ 0b10_000000 + bits % 64 }
{
    (0b1000_0000 + bits % 64) as u8
}

// The lead octet of three.
fn lead_of_three(value: u32) -> u8
    requires { value ≤ 0xFFFF }
    ensures { result ≡ 0b1110_0000 + value / 64 / 64 }
{
    (0b1110_0000 + value / 64 / 64) as u8
}

// The octets of one scalar.
pub fn sequence_of(value: u32) -> Result<Sequence, BadText>
    ensures { paper_sequence result ≡ sequence_of value }
{
    if value <= 0x7F {
        return Ok(Sequence::One(value as u8));
    }
    if !is_scalar(value) {
        return Err(BadText);
    }
    if value <= 0x7FF {
        return Ok(Sequence::Two((0b1100_0000 + value / 64) as u8, tail(value)));
    }
    if value <= 0xFFFF {
        return Ok(Sequence::Three(lead_of_three(value), tail(value / 64), tail(value)));
    }
    Ok(Sequence::Four(
        (0b1111_0000 + value / 64 / 64 / 64) as u8,
        tail(value / 64 / 64),
        tail(value / 64),
        tail(value),
    ))
}

// How many octets a sequence has.
fn octet_len(sequence: Sequence) -> usize
    ensures { result ≡ length (octets_of sequence) }
{
    match sequence {
        Sequence::One(_) => 1,
        Sequence::Two(_, _) => 2,
        Sequence::Three(_, _, _) => 3,
        Sequence::Four(_, _, _, _) => 4,
    }
}

// How many octets the scalars take. One and three octets are counted here, so that a run of them makes no call.
pub fn count_octets(scalars: &[u32]) -> Result<usize, BadText>
    ensures { paper_octet_count result ≡ octet_count scalars.now }
{
    let mut count = 0;
    for &value in scalars {
        if value <= 0x7F {
            count += 1;
        } else if (0x7FF < value) & (value <= 0xD7FF) {
            count += 3;
        } else {
            count += octet_len(sequence_of(value)?);
        }
    }
    Ok(count)
}

// A sequence, to a slice that has room for it at `at`; the place after it.
fn put(out: &mut [u8], at: ByteOffset, sequence: Sequence) -> ByteOffset
    requires { at.0 + length (octets_of sequence) ≤ length out.old }
    ensures { (out.new ≡ sets out.old at.0 (octets_of sequence)) × (result.0 ≡ at.0 + length (octets_of sequence)) }
{
    let start = at.0;
    match sequence {
        Sequence::One(a) => {
            out[start] = a;
            ByteOffset(start + 1)
        }
        Sequence::Two(a, b) => {
            out[start..start + 2].copy_from_slice(&[a, b]);
            ByteOffset(start + 2)
        }
        Sequence::Three(a, b, c) => {
            out[start..start + 3].copy_from_slice(&[a, b, c]);
            ByteOffset(start + 3)
        }
        Sequence::Four(a, b, c, d) => {
            out[start..start + 4].copy_from_slice(&[a, b, c, d]);
            ByteOffset(start + 4)
        }
    }
}

// The octets of the scalars, to the front of a slice that has room for them. One and three octets are written here, so that
// a run of them makes no call.
pub fn fill_octets(scalars: &[u32], out: &mut [u8])
    requires { (all_scalar scalars.now ≡ true) × (length (writing scalars.now) ≤ length out.old) }
    ensures { out.new ≡ over (writing scalars.now) out.old }
{
    let mut at = ByteOffset(0);
    for &value in scalars {
        let start = at.0;
        if value <= 0x7F {
            out[start] = value as u8;
            at = ByteOffset(start + 1);
        } else if (0x7FF < value) & (value <= 0xFFFF) {
            let octets = [lead_of_three(value), tail(value / 64), tail(value)];
            out[start..start + 3].copy_from_slice(&octets);
            at = ByteOffset(start + 3);
        } else {
            at = put(out, at, sequence_of(value).unwrap());
        }
    }
}

// All the octets of the scalars, to the front of `out`.
pub fn encode(scalars: &[u32], out: &mut [u8]) -> Result<usize, EncodeError>
    ensures { outcome (paper_encoded result) out.new ≡ encoded scalars.now out.old }
{
    let count = count_octets(scalars)?;
    if out.len() < count {
        return Err(EncodeError::NoRoom);
    }
    fill_octets(scalars, out);
    Ok(count)
}
