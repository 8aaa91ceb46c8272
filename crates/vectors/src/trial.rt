// One call of `decoding` or `encoding` on an array full of one value, held to what it must answer and write.
use utf8::{DecodeError, EncodeError};

// What a call writes, the other form that it reads, and the call: how much it wrote.
pub(crate) trait Form: Copy + PartialEq {
    type Other;

    type Error: Copy + PartialEq;

    // No scalar, and no octet of UTF-8.
    const FILL: Self;

    const NO_ROOM: Self::Error;

    fn write(from: &[Self::Other], out: &mut [Self]) -> Result<usize, Self::Error>;
}

impl Form for u32 {
    type Other = u8;

    type Error = DecodeError;

    const FILL: u32 = 0xA5A5A5A5;

    const NO_ROOM: DecodeError = DecodeError::NoRoom;

    fn write(bytes: &[u8], out: &mut [u32]) -> Result<usize, DecodeError> {
        decoding::decode(bytes, out)
    }
}

impl Form for u8 {
    type Other = u32;

    type Error = EncodeError;

    const FILL: u8 = 0xF5;

    const NO_ROOM: EncodeError = EncodeError::NoRoom;

    fn write(scalars: &[u32], out: &mut [u8]) -> Result<usize, EncodeError> {
        encoding::encode(scalars, out)
    }
}

// Whether a call with so much of `out` answers what is expected, and leaves what was to be written and the fill after it.
pub(crate) fn gives<T: Form>(
    from: &[T::Other],
    out: &mut [T],
    room: usize,
    expected: Result<usize, T::Error>,
    written: &[T],
) -> bool {
    out.fill_with(|| T::FILL);
    let Some(lent) = out.get_mut(..room) else {
        return false;
    };
    T::write(from, lent) == expected
        && out
            .strip_prefix(written)
            .is_some_and(|rest| rest.iter().all(|x| *x == T::FILL))
}
