// Edits and selections by the number of their kind.
ghost use Rattle.std.specs.Prelude.{◌≡◌};
ghost use Rattle.text.specs.Rows.{at};
ghost use Rattle.plain.specs.Meanings.{item, meant, selections, at_ends, at_place, at_row, range_kind, numbers_of};

use crate::Numbers;
use edit::{Edit, MotionKind};
use select::{Sel, Selection};
use text::{Col, Position, Row};

// The edit that the numbers mean: the kinds in their order.
#[tactic(auto, using(crate::proofs::Items::none_of_eleven), unfolding(crate::specs::Meanings::item))]
pub fn meant_edit(numbers: Numbers) -> Option<Edit>
    ensures { result ≡ meant numbers }
{
    let kind = numbers.kind;
    let start = numbers.start;
    let end = numbers.end;
    let row = start.row;
    let count = numbers.count;
    match kind {
        0 => Some(Edit::InsertChar { at: start }),
        1 => Some(Edit::InsertStr { at: start }),
        2 => Some(Edit::DeleteRange {
            start,
            end,
            kind: MotionKind::Char,
        }),
        3 => Some(Edit::DeleteRange {
            start,
            end,
            kind: MotionKind::Line,
        }),
        4 => Some(Edit::DeleteRange {
            start,
            end,
            kind: MotionKind::Block,
        }),
        5 => Some(Edit::JoinLines {
            row,
            count,
            with_space: false,
        }),
        6 => Some(Edit::JoinLines {
            row,
            count,
            with_space: true,
        }),
        7 => Some(Edit::SplitLines { row }),
        8 => Some(Edit::Replace { start, end }),
        9 => Some(Edit::InsertBlock { at: start }),
        10 => Some(Edit::DeleteBlockChunks { at: start }),
        _ => None,
    }
}

pub fn origin() -> Position
    ensures { result ≡ at 0 0 }
{
    Position {
        row: Row(0),
        col: Col(0),
    }
}

// Numbers that are all 0.
pub fn no_edit() -> Numbers
    ensures { result ≡ at_place 0 (at 0 0) }
{
    at_place(0, origin())
}

fn at_place(kind: u32, place: Position) -> Numbers
    ensures { result ≡ at_place kind place }
{
    at_ends(kind, place, origin())
}

fn at_ends(kind: u32, start: Position, end: Position) -> Numbers
    ensures { result ≡ at_ends kind start end }
{
    Numbers {
        kind,
        start,
        end,
        count: 0,
    }
}

fn at_row(kind: u32, row: Row, count: u32) -> Numbers
    ensures { result ≡ at_row kind row count }
{
    Numbers {
        count,
        ..at_place(kind, Position { row, col: Col(0) })
    }
}

fn range_kind(kind: MotionKind) -> u32
    ensures { result ≡ range_kind kind }
{
    match kind {
        MotionKind::Char => 2,
        MotionKind::Line => 3,
        MotionKind::Block => 4,
    }
}

// The numbers that mean the edit.
pub fn told_edit(edit: Edit) -> Numbers
    ensures { result ≡ numbers_of edit }
{
    match edit {
        Edit::InsertChar { at } => at_place(0, at),
        Edit::InsertStr { at } => at_place(1, at),
        Edit::DeleteRange { start, end, kind } => at_ends(range_kind(kind), start, end),
        Edit::JoinLines {
            row,
            count,
            with_space,
        } => at_row(if with_space { 6 } else { 5 }, row, count),
        Edit::SplitLines { row } => at_row(7, row, 0),
        Edit::Replace { start, end } => at_ends(8, start, end),
        Edit::InsertBlock { at } => at_place(9, at),
        Edit::DeleteBlockChunks { at } => at_place(10, at),
    }
}

// The selection that the kind means, with these ends.
#[tactic(auto, using(crate::proofs::Items::none_of_three), unfolding(crate::specs::Meanings::item))]
pub fn meant_selection(kind: u32, sel: Sel) -> Option<Selection>
    ensures { result ≡ item (selections sel) kind }
{
    let anchor = sel.anchor;
    let head = sel.head;
    match kind {
        0 => Some(Selection::Char { anchor, head }),
        1 => Some(Selection::Line {
            anchor_row: anchor.row,
            head_row: head.row,
        }),
        2 => Some(Selection::Block { anchor, head }),
        _ => None,
    }
}
