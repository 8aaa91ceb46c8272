// UTF-8 as RFC 3629 has it: its definitions and their laws, and the answers of those who read and write it. Which scalars a
// text admits is no part of this crate.
#![tactic(auto)]

// A place in a slice of bytes.
#[derive(Clone, Copy, Debug, PartialEq, Eq, PartialOrd, Ord)]
pub struct ByteOffset(pub usize);

// What stands at a place of a slice of bytes: a scalar, and the place after its sequence.
#[derive(Clone, Copy)]
pub struct Scalar {
    pub value: u32,
    pub next: ByteOffset,
}

// The sequence of one scalar.
#[derive(Clone, Copy)]
pub enum Sequence {
    One(u8),
    Two(u8, u8),
    Three(u8, u8, u8),
    Four(u8, u8, u8, u8),
}

// Nothing well-formed stands at this place.
#[derive(Clone, Copy, Debug, PartialEq, Eq)]
pub struct BadUtf8(pub ByteOffset);

// A value is none that a text may hold.
#[derive(Clone, Copy, Debug, PartialEq, Eq)]
pub struct BadText;

// The slice lent for the output is too short.
#[derive(Clone, Copy, Debug, PartialEq, Eq)]
pub struct NoRoom;

// Why bytes are not decoded.
#[derive(Clone, Copy, Debug, PartialEq, Eq)]
pub enum DecodeError {
    BadUtf8(ByteOffset),
    NoRoom,
}

// Why scalars are not encoded.
#[derive(Clone, Copy, Debug, PartialEq, Eq)]
pub enum EncodeError {
    BadText,
    NoRoom,
}

impl From<BadUtf8> for DecodeError {
    ghost use Rattle.std.specs.Prelude.{◌≡◌};
    ghost use Rattle.utf8.specs.declared.DecodeError.TheVariants as decode_error;

    ghost from_gives = { λ bad e. e ≡ decode_error.BadUtf8 bad.0 };

    fn from(bad: BadUtf8) -> DecodeError {
        DecodeError::BadUtf8(bad.0)
    }
}

impl From<BadText> for EncodeError {
    ghost use Rattle.std.specs.Prelude.{◌≡◌};
    ghost use Rattle.utf8.specs.declared.EncodeError.TheVariants as encode_error;

    ghost from_gives = { λ _ e. e ≡ encode_error.BadText };

    fn from(_bad: BadText) -> EncodeError {
        EncodeError::BadText
    }
}
