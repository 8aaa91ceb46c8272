// Whether an edit can be undone.
ghost use Rattle.std.specs.Prelude.{◌≡◌, ◌≤◌, length, take};
ghost use Rattle.text.specs.Rows.{lines};
ghost use Rattle.text.specs.Text.{is_lf, text_limit};
ghost use Rattle.edit.specs.declared.MotionKind.TheVariants.{Block};
ghost use Rattle.edit.specs.Refusals.{wide};
ghost use Rattle.edit.specs.Call.{range_undoable, is_undoable};
ghost use Rattle.view.specs.Calls.{UndoablePromised};

use edit::{Edit, MotionKind, Refusal, View, extent};
use given::judge;
use rows::{contains, last_row, line_to_char};
use text::{Col, LF, Position};

// Whether none of the first `count` rows is shorter than `left`.
fn rows_wide(text: &[u32], count: usize, left: Col) -> bool
    ensures { result ≡ wide left.0 (take count (lines is_lf text.now)) }
{
    let least = left.0 as usize;
    if least == 0 {
        return true;
    }
    text.split(|x| *x == LF)
        .take(count)
        .all(|row| least <= row.len())
}

fn block_undoable(text: &[u32], start: Position, end: Position) -> bool
    requires { length text.now ≤ text_limit }
    ensures { result ≡ range_undoable text.now start end Block }
{
    let top = start.row.min(end.row);
    let left = start.col.min(end.col);
    let last = last_row(text);
    if last < top {
        return true;
    }
    let from = line_to_char(text, top).0;
    rows_wide(&text[from..], extent(start.row.0, end.row.0), left)
}

fn range_undoable(text: &[u32], start: Position, end: Position, kind: MotionKind) -> bool
    requires { length text.now ≤ text_limit }
    ensures { result ≡ range_undoable text.now start end kind }
{
    match kind {
        MotionKind::Char => contains(text, start.min(end)),
        MotionKind::Line => true,
        MotionKind::Block => block_undoable(text, start, end),
    }
}

fn is_undoable(text: &[u32], edit: Edit) -> bool
    requires { length text.now ≤ text_limit }
    ensures { result ≡ is_undoable text.now edit }
{
    match edit {
        Edit::InsertChar { .. } => true,
        Edit::InsertStr { .. } => true,
        Edit::DeleteRange { start, end, kind } => range_undoable(text, start, end, kind),
        Edit::JoinLines { .. } => true,
        Edit::SplitLines { .. } => false,
        Edit::Replace { start, end } => contains(text, start.min(end)),
        Edit::InsertBlock { .. } => true,
        Edit::DeleteBlockChunks { .. } => false,
    }
}

// Whether the edit's inverse gives the text back.
pub fn undoable(
    buffer: &[u32],
    view: View,
    edit: Edit,
    payload: &[u32],
    first: &[u32],
    second: &[u32],
) -> Result<bool, Refusal>
    ensures { UndoablePromised result buffer.now view edit payload.now first.now second.now }
{
    judge(buffer, view, edit, payload, first, second)?;
    let used = view.used;
    Ok(is_undoable(&buffer[0..used], edit))
}
