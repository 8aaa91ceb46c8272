// Refusal 2: numbers over their limit. What a kind does not use is not read.
#![tactic(auto)]

ghost use Rattle.std.specs.Prelude.{◌≡◌};
ghost use Rattle.text.specs.Text.{all};
ghost use Rattle.edit.specs.Refusals.{small, small_position, small_range, small_ok};

use edit::{Edit, MotionKind};
use text::Position;

// The greatest number of an edit, of what is shifted, or of a box.
pub const NUMBER_LIMIT: u32 = 1_000_000;

// Looks at every item: without an early exit the loop is vectorised. One with `all_admissible` by a closure would be no plainer.
fn all_small(list: &[u32]) -> bool
    ensures { result ≡ all small list.now }
{
    let mut all = true;
    for x in list {
        all &= *x <= NUMBER_LIMIT;
    }
    all
}

pub fn small_position(pos: Position) -> bool
    ensures { result ≡ small_position pos }
{
    (pos.row.0 <= NUMBER_LIMIT) & (pos.col.0 <= NUMBER_LIMIT)
}

fn small_range(start: Position, end: Position, kind: MotionKind) -> bool
    ensures { result ≡ small_range start end kind }
{
    match kind {
        MotionKind::Char => small_position(start) & small_position(end),
        MotionKind::Line => (start.row.0 <= NUMBER_LIMIT) & (end.row.0 <= NUMBER_LIMIT),
        MotionKind::Block => small_position(start) & small_position(end),
    }
}

pub fn numbers_small(edit: Edit, first: &[u32], second: &[u32]) -> bool
    ensures { result ≡ small_ok edit first.now second.now }
{
    match edit {
        Edit::InsertChar { at } => small_position(at),
        Edit::InsertStr { at } => small_position(at),
        Edit::DeleteRange { start, end, kind } => small_range(start, end, kind),
        Edit::JoinLines { row, count, .. } => (row.0 <= NUMBER_LIMIT) & (count <= NUMBER_LIMIT),
        Edit::SplitLines { row } => (row.0 <= NUMBER_LIMIT) & all_small(first) & all_small(second),
        Edit::Replace { start, end } => small_position(start) & small_position(end),
        Edit::InsertBlock { at } => small_position(at) & all_small(first),
        Edit::DeleteBlockChunks { at } => small_position(at) & all_small(first) & all_small(second),
    }
}
