// Ends in order.
ghost use Rattle.std.specs.Prelude.{◌≡◌};
ghost use Rattle.edit.specs.declared.Edit.TheVariants.{DeleteRange};
ghost use Rattle.marking.specs.InOrder.{in_order};

use edit::{Edit, MotionKind};
use text::Position;

fn range_in_order(start: Position, end: Position, kind: MotionKind) -> Edit
    ensures { result ≡ in_order (DeleteRange start end kind) }
{
    let first = start.min(end);
    let last = start.max(end);
    match kind {
        MotionKind::Char => Edit::DeleteRange {
            start: first,
            end: last,
            kind: MotionKind::Char,
        },
        MotionKind::Line => Edit::DeleteRange {
            start: first,
            end: last,
            kind: MotionKind::Line,
        },
        MotionKind::Block => Edit::DeleteRange {
            start,
            end,
            kind: MotionKind::Block,
        },
    }
}

pub fn in_order(edit: Edit) -> Edit
    ensures { result ≡ in_order edit }
{
    match edit {
        Edit::InsertChar { .. } => edit,
        Edit::InsertStr { .. } => edit,
        Edit::DeleteRange { start, end, kind } => range_in_order(start, end, kind),
        Edit::JoinLines { .. } => edit,
        Edit::SplitLines { .. } => edit,
        Edit::Replace { start, end } => Edit::Replace {
            start: start.min(end),
            end: start.max(end),
        },
        Edit::InsertBlock { .. } => edit,
        Edit::DeleteBlockChunks { .. } => edit,
    }
}
