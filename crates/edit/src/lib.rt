// The port's types: a view, an edit with its numbers, and the answer to one. The text, the payload and the lists of an edit
// are lent beside them as slices.
#![tactic(auto)]

ghost use Rattle.std.specs.Prelude.{◌≡◌, suc, ◌-◌, min, max};
ghost use Rattle.edit.specs.Call.{number_of};

use text::{Position, Row};
use utf8::{BadText, BadUtf8, ByteOffset, DecodeError, EncodeError, NoRoom};

// A text's used length in its lent buffer (C has no slice of a slice), the cursor, and how many edits were accepted, modulo 2^64.
#[repr(C)]
#[derive(Clone, Copy, PartialEq, Eq)]
pub struct View {
    pub used: usize,
    pub cursor: Position,
    pub changes: u64,
}

impl View {
    // The one place where a view is made anew. A part that a view gains later is kept from `self`.
    pub fn renew(self, used: usize, cursor: Position, changes: u64) -> View
        ensures { result ≡ record { used = used; cursor = cursor; changes = changes } }
    {
        View {
            used,
            cursor,
            changes,
        }
    }
}

// How many rows or columns a block has from the one to the other, both counted.
pub fn extent(a: u32, b: u32) -> usize
    ensures { result ≡ suc (max a b - min a b) }
{
    a.abs_diff(b) as usize + 1
}

#[derive(Clone, Copy, Debug, PartialEq, Eq)]
pub enum MotionKind {
    Char,
    Line,
    Block,
}

// Beside it a payload and two lists are lent: the payload is what InsertChar, InsertStr and Replace put in, and InsertBlock's
// chunks one after another; the first list is InsertBlock's chunk lengths, SplitLines' columns or DeleteBlockChunks' widths;
// the second is SplitLines' flags or DeleteBlockChunks' pads.
#[derive(Clone, Copy)]
pub enum Edit {
    InsertChar {
        at: Position,
    },
    InsertStr {
        at: Position,
    },
    DeleteRange {
        start: Position,
        end: Position,
        kind: MotionKind,
    },
    JoinLines {
        row: Row,
        count: u32,
        with_space: bool,
    },
    SplitLines {
        row: Row,
    },
    Replace {
        start: Position,
        end: Position,
    },
    InsertBlock {
        at: Position,
    },
    DeleteBlockChunks {
        at: Position,
    },
}

#[derive(Clone, Copy, Debug, PartialEq, Eq)]
pub enum Refusal {
    BadText,
    TooBig,
    TooMany,
    BadPayload,
    BadUtf8(ByteOffset),
    Reversed,
    BeyondRow,
    NoRoom,
    NoRecord,
    BadFrame,
}

impl Refusal {
    // Its number in the table of refusals.
    pub fn number(self) -> u32
        ensures { result ≡ number_of self }
    {
        match self {
            Refusal::BadText => 1,
            Refusal::TooBig => 2,
            Refusal::TooMany => 3,
            Refusal::BadPayload => 4,
            Refusal::BadUtf8(_) => 5,
            Refusal::Reversed => 6,
            Refusal::BeyondRow => 7,
            Refusal::NoRoom => 8,
            Refusal::NoRecord => 9,
            Refusal::BadFrame => 10,
        }
    }
}

impl From<BadText> for Refusal {
    ghost use Rattle.std.specs.Prelude.{◌≡◌};
    ghost use Rattle.edit.specs.declared.Refusal.TheVariants as refusal;

    ghost from_gives = { λ _ why. why ≡ refusal.BadText };

    fn from(_bad: BadText) -> Refusal {
        Refusal::BadText
    }
}

impl From<NoRoom> for Refusal {
    ghost use Rattle.std.specs.Prelude.{◌≡◌};
    ghost use Rattle.edit.specs.declared.Refusal.TheVariants as refusal;

    ghost from_gives = { λ _ why. why ≡ refusal.NoRoom };

    fn from(_full: NoRoom) -> Refusal {
        Refusal::NoRoom
    }
}

impl From<BadUtf8> for Refusal {
    ghost use Rattle.std.specs.Prelude.{◌≡◌};
    ghost use Rattle.edit.specs.declared.Refusal.TheVariants as refusal;

    ghost from_gives = { λ bad why. why ≡ refusal.BadUtf8 bad.0 };

    fn from(bad: BadUtf8) -> Refusal {
        Refusal::BadUtf8(bad.0)
    }
}

impl From<DecodeError> for Refusal {
    ghost use Rattle.std.specs.Prelude.{◌≡◌};
    ghost use Rattle.edit.specs.Errors.{decode_refusal};

    ghost from_gives = { λ bad why. why ≡ decode_refusal bad };

    fn from(bad: DecodeError) -> Refusal {
        match bad {
            DecodeError::BadUtf8(at) => Refusal::BadUtf8(at),
            DecodeError::NoRoom => Refusal::NoRoom,
        }
    }
}

impl From<EncodeError> for Refusal {
    ghost use Rattle.std.specs.Prelude.{◌≡◌};
    ghost use Rattle.edit.specs.Errors.{encode_refusal};

    ghost from_gives = { λ bad why. why ≡ encode_refusal bad };

    fn from(bad: EncodeError) -> Refusal {
        match bad {
            EncodeError::BadText => Refusal::BadText,
            EncodeError::NoRoom => Refusal::NoRoom,
        }
    }
}

// How long the lent slices are: the text's buffer, and the slices for the inverse's payload and its two lists.
#[derive(Clone, Copy)]
pub struct Room {
    pub buffer: usize,
    pub payload: usize,
    pub first: usize,
    pub second: usize,
}

// How long the text will be, and the inverse's payload and lists.
#[derive(Clone, Copy)]
pub struct Plan {
    pub used: usize,
    pub payload: usize,
    pub first: usize,
    pub second: usize,
}

// The view after an edit, the inverse, and how much of the inverse's slices was written.
#[derive(Clone, Copy)]
pub struct Applied {
    pub view: View,
    pub inverse: Edit,
    pub payload: usize,
    pub first: usize,
    pub second: usize,
}
