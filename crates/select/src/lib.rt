// Selections: small values with their own operations, each of which hands the new value back.
#![tactic(auto)]

mod ends;
mod shapes;

use text::{Col, Position, Row};

// Two ends, both covered: the one that stays put while a motion runs, and the one that it moves.
#[repr(C)]
#[derive(Clone, Copy, Debug, PartialEq, Eq)]
pub struct Sel {
    pub anchor: Position,
    pub head: Position,
}

// By characters, by whole rows, or the rectangle between two corners.
#[derive(Clone, Copy)]
pub enum Selection {
    Char { anchor: Position, head: Position },
    Line { anchor_row: Row, head_row: Row },
    Block { anchor: Position, head: Position },
}

// The columns of a row that a selection covers: none, those between two that are both covered, or all from one on.
#[derive(Clone, Copy)]
pub enum RowSpan {
    Outside,
    Closed { lo: Col, hi: Col },
    Open { lo: Col },
}

// The first and the last row of a selection.
#[derive(Clone, Copy)]
pub struct RowBounds {
    pub top: Row,
    pub bottom: Row,
}
