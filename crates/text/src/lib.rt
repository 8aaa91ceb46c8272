// Texts and places in them: rows, columns, character offsets, and which texts are admitted.
#![tactic(auto)]

mod admit;

pub use admit::{TEXT_LIMIT, all_admissible, is_text};

pub const LF: u32 = 10;

#[repr(C)]
#[derive(Clone, Copy, Debug, PartialEq, Eq, PartialOrd, Ord)]
pub struct Row(pub u32);

#[repr(C)]
#[derive(Clone, Copy, Debug, PartialEq, Eq, PartialOrd, Ord)]
pub struct Col(pub u32);

// A place in a text, counted in characters from its start.
#[derive(Clone, Copy, Debug, PartialEq, Eq, PartialOrd, Ord)]
pub struct CharOffset(pub usize);

#[repr(C)]
#[derive(Clone, Copy, Debug, PartialEq, Eq, PartialOrd, Ord)]
pub struct Position {
    pub row: Row,
    pub col: Col,
}

// A row that a text has: its number, where it starts, and where it ends, at its LF or at the end of the text.
#[derive(Clone, Copy)]
pub struct Span {
    pub row: Row,
    pub start: CharOffset,
    pub end: CharOffset,
}

// A place in a text, by its two names.
#[derive(Clone, Copy)]
pub struct Place {
    pub pos: Position,
    pub at: CharOffset,
}
