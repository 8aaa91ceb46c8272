// One sequence of octets: which scalar it is, by RFC 3629.
#![tactic(auto)]

ghost use Rattle.std.specs.Prelude.{◌≡◌, cond, List, [], ◌∷◌, ℕ, ◌+◌, ◌-◌, ◌<◌, eqb, length};
ghost use Rattle.std.specs.Int.Count.{count_leading_zeros};
ghost use Rattle.utf8.specs.Rfc3629.{UTF8-2, UTF8-3, UTF8-4, UTF8-char, taken, number};
ghost use Rattle.utf8.specs.Lead.{announced};
ghost use Rattle.utf8.specs.Answers.{paper_step};
ghost use Rattle.utf8.specs.Calls.{step_by};

use utf8::{BadUtf8, ByteOffset, Scalar};

pub fn leading_ones(x: u8) -> u32
    ensures { result ≡ count_leading_zeros 8 (255 - x) }
{
    x.leading_ones()
}

// UTF8-2
fn is_two(a: u8, b: u8) -> bool
    ensures { (s : List ℕ) → taken UTF8-2 (a ∷ b ∷ s) ≡ cond result 2 0 }
{
    (0xC2 <= a) & (a <= 0xDF) & (0x80 <= b) & (b <= 0xBF)
}

// An end of the second octet's range: one lead has an end of its own.
fn end_after(lead: u8, edge: u8, end: u8, other: u8) -> u8
    ensures { result ≡ cond (eqb lead edge) end other }
{
    if lead == edge { end } else { other }
}

// UTF8-3
pub fn is_three(a: u8, b: u8, c: u8) -> bool
    ensures { (s : List ℕ) → taken UTF8-3 (a ∷ b ∷ c ∷ s) ≡ cond result 3 0 }
{
    let low = end_after(a, 0xE0, 0xA0, 0x80);
    let high = end_after(a, 0xED, 0x9F, 0xBF);
    (0xE0 <= a) & (a <= 0xEF) & (low <= b) & (b <= high) & (0x80 <= c) & (c <= 0xBF)
}

// UTF8-4
fn is_four(a: u8, b: u8, c: u8, d: u8) -> bool
    ensures { (s : List ℕ) → taken UTF8-4 (a ∷ b ∷ c ∷ d ∷ s) ≡ cond result 4 0 }
{
    let low = end_after(a, 0xF0, 0x90, 0x80);
    let high = end_after(a, 0xF4, 0x8F, 0xBF);
    (0xF0 <= a)
        & (a <= 0xF4)
        & (low <= b)
        & (b <= high)
        & (0x80 <= c)
        & (c <= 0xBF)
        & (0x80 <= d)
        & (d <= 0xBF)
}

#[tactic(auto, unfolding(utf8::specs::Rfc3629::number))]
pub fn number_of_two(a: u8, b: u8) -> u32
    ensures { result ≡ number (a ∷ b ∷ []) }
{
    u32::from(a) % 32 * 64 + u32::from(b) % 64
}

#[tactic(auto, unfolding(utf8::specs::Rfc3629::number))]
pub fn number_of_three(a: u8, b: u8, c: u8) -> u32
    ensures { result ≡ number (a ∷ b ∷ c ∷ []) }
{
    (u32::from(a) % 16 * 64 + u32::from(b) % 64) * 64 + u32::from(c) % 64
}

#[tactic(auto, unfolding(utf8::specs::Rfc3629::number))]
pub fn number_of_four(a: u8, b: u8, c: u8, d: u8) -> u32
    ensures { result ≡ number (a ∷ b ∷ c ∷ d ∷ []) }
{
    ((u32::from(a) % 8 * 64 + u32::from(b) % 64) * 64 + u32::from(c) % 64) * 64 + u32::from(d) % 64
}

// A sequence of more than one octet, by its lead's leading one bits. Each arm takes its own slice: with one slice before them the
// arms make no jump table where this is called.
fn read_long(bytes: &[u8], start: usize, ones: u32) -> Result<Scalar, BadUtf8>
    requires { (start < length bytes.now) × (0 < ones) }
    ensures { paper_step result ≡ step_by (announced ones) bytes.now start }
{
    let bad = Err(BadUtf8(ByteOffset(start)));
    match ones {
        2 => match &bytes[start..] {
            [a, b, ..] if is_two(*a, *b) => Ok(Scalar {
                value: number_of_two(*a, *b),
                next: ByteOffset(start + 2),
            }),
            _ => bad,
        },
        3 => match &bytes[start..] {
            [a, b, c, ..] if is_three(*a, *b, *c) => Ok(Scalar {
                value: number_of_three(*a, *b, *c),
                next: ByteOffset(start + 3),
            }),
            _ => bad,
        },
        4 => match &bytes[start..] {
            [a, b, c, d, ..] if is_four(*a, *b, *c, *d) => Ok(Scalar {
                value: number_of_four(*a, *b, *c, *d),
                next: ByteOffset(start + 4),
            }),
            _ => bad,
        },
        _ => bad,
    }
}

// The scalar whose sequence starts at `at`, and the place after it.
pub fn read_scalar(bytes: &[u8], at: ByteOffset) -> Result<Scalar, BadUtf8>
    ensures { paper_step result ≡ step_by UTF8-char bytes.now at.0 }
{
    let start = at.0;
    let Some(lead) = bytes.get(start) else {
        return Err(BadUtf8(at));
    };
    let ones = leading_ones(*lead);
    if ones == 0 {
        return Ok(Scalar {
            value: u32::from(*lead),
            next: ByteOffset(start + 1),
        });
    }
    read_long(bytes, start, ones)
}
