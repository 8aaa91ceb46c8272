// Positions and edits from the numbers that programs read, and back.
#![tactic(auto)]

use edit::{Edit, MotionKind};
use std::fmt;
use text::{Col, Position, Row};

pub fn position(row: u32, col: u32) -> Position {
    Position {
        row: Row(row),
        col: Col(col),
    }
}

// A position's row and column, with a space between them.
#[derive(Clone, Copy)]
pub struct Spot(pub Position);

impl fmt::Display for Spot {
    fn fmt<W: fmt::Write>(&self, f: &mut fmt::Formatter<W>) -> fmt::Result {
        let row = self.0.row.0;
        let col = self.0.col.0;
        write!(f, "{row} {col}")
    }
}

// The kinds of edits, in the order of their numbers, which begin at 0.
#[derive(Clone, Copy, Debug, PartialEq, Eq)]
pub enum Kind {
    InsertChar,
    InsertStr,
    DeleteChars,
    DeleteLines,
    DeleteBlock,
    JoinLines,
    JoinLinesWithSpace,
    SplitLines,
    Replace,
    InsertBlock,
    DeleteBlockChunks,
}

// No kind has the number.
#[derive(Clone, Copy, Debug, PartialEq, Eq)]
pub struct UnknownKind;

impl TryFrom<u32> for Kind {
    type Error = UnknownKind;

    fn try_from(number: u32) -> Result<Kind, UnknownKind> {
        match number {
            0 => Ok(Kind::InsertChar),
            1 => Ok(Kind::InsertStr),
            2 => Ok(Kind::DeleteChars),
            3 => Ok(Kind::DeleteLines),
            4 => Ok(Kind::DeleteBlock),
            5 => Ok(Kind::JoinLines),
            6 => Ok(Kind::JoinLinesWithSpace),
            7 => Ok(Kind::SplitLines),
            8 => Ok(Kind::Replace),
            9 => Ok(Kind::InsertBlock),
            10 => Ok(Kind::DeleteBlockChunks),
            _ => Err(UnknownKind),
        }
    }
}

impl From<Edit> for Kind {
    fn from(edit: Edit) -> Kind {
        match edit {
            Edit::InsertChar { .. } => Kind::InsertChar,
            Edit::InsertStr { .. } => Kind::InsertStr,
            Edit::DeleteRange { kind, .. } => match kind {
                MotionKind::Char => Kind::DeleteChars,
                MotionKind::Line => Kind::DeleteLines,
                MotionKind::Block => Kind::DeleteBlock,
            },
            Edit::JoinLines { with_space, .. } => {
                if with_space {
                    Kind::JoinLinesWithSpace
                } else {
                    Kind::JoinLines
                }
            }
            Edit::SplitLines { .. } => Kind::SplitLines,
            Edit::Replace { .. } => Kind::Replace,
            Edit::InsertBlock { .. } => Kind::InsertBlock,
            Edit::DeleteBlockChunks { .. } => Kind::DeleteBlockChunks,
        }
    }
}

fn delete(start: Position, end: Position, kind: MotionKind) -> Edit {
    Edit::DeleteRange { start, end, kind }
}

// A join's count stands in the place of the second row.
fn join(start: Position, end: Position, with_space: bool) -> Edit {
    Edit::JoinLines {
        row: start.row,
        count: end.row.0,
        with_space,
    }
}

impl Kind {
    pub fn edit(self, start: Position, end: Position) -> Edit {
        match self {
            Kind::InsertChar => Edit::InsertChar { at: start },
            Kind::InsertStr => Edit::InsertStr { at: start },
            Kind::DeleteChars => delete(start, end, MotionKind::Char),
            Kind::DeleteLines => delete(start, end, MotionKind::Line),
            Kind::DeleteBlock => delete(start, end, MotionKind::Block),
            Kind::JoinLines => join(start, end, false),
            Kind::JoinLinesWithSpace => join(start, end, true),
            Kind::SplitLines => Edit::SplitLines { row: start.row },
            Kind::Replace => Edit::Replace { start, end },
            Kind::InsertBlock => Edit::InsertBlock { at: start },
            Kind::DeleteBlockChunks => Edit::DeleteBlockChunks { at: start },
        }
    }
}
