// A position followed through an edit, kind by kind; and the two ends of a selection.
ghost use Rattle.std.specs.Prelude.{true, [], ◌≡◌, ◌≤◌, length};
ghost use Rattle.text.specs.Text.{text_limit};
ghost use Rattle.edit.specs.Refusals.{small_position, small_range, small_ok, few_ok};
ghost use Rattle.shift.specs.Answers.{followed};
ghost use Rattle.shift.specs.Kinds.{after_delete, shifted};
ghost use Rattle.shift.specs.Call.{ordered_range, ordered_ok, both};

use after::after_join;
use after_boxes::{after_delete_block, after_delete_block_chunks, after_insert_block};
use after_chars::{after_delete_char, after_delete_lines, after_insert};
use edit::{Edit, MotionKind};
use select::Sel;
use text::Position;

fn after_delete(pos: Position, start: Position, end: Position, kind: MotionKind) -> Position
    requires { (small_position pos ≡ true) × (small_range start end kind ≡ true) × (ordered_range start end kind ≡ true) }
    ensures { result ≡ after_delete pos start end kind }
{
    match kind {
        MotionKind::Char => after_delete_char(pos, start, end),
        MotionKind::Line => after_delete_lines(pos, start.row, end.row),
        MotionKind::Block => after_delete_block(pos, start, end),
    }
}

// The position after an edit that is not refused, or none where it cannot be followed.
pub fn follow(
    text: &[u32],
    edit: Edit,
    payload: &[u32],
    first: &[u32],
    pos: Position,
) -> Option<Position>
    requires { (length text.now ≤ text_limit) × (small_position pos ≡ true) × (small_ok edit first.now [] ≡ true) × (few_ok text.now edit payload.now first.now [] ≡ true) × (ordered_ok edit ≡ true) }
    ensures { followed result ≡ shifted text.now edit payload.now first.now pos }
{
    match edit {
        Edit::InsertChar { at } => Some(after_insert(pos, at, payload)),
        Edit::InsertStr { at } => Some(after_insert(pos, at, payload)),
        Edit::DeleteRange { start, end, kind } => Some(after_delete(pos, start, end, kind)),
        Edit::JoinLines {
            row,
            count,
            with_space,
        } => Some(after_join(pos, row, count, with_space, text)),
        Edit::SplitLines { .. } => None,
        Edit::Replace { start, end } => {
            let deleted = after_delete_char(pos, start, end);
            Some(after_insert(deleted, start, payload))
        }
        Edit::InsertBlock { at } => Some(after_insert_block(pos, at, first)),
        Edit::DeleteBlockChunks { at } => Some(after_delete_block_chunks(pos, at, first)),
    }
}

// None where an end cannot be followed. Each is followed as it stands: they are not put in order.
pub fn follow_sel(text: &[u32], edit: Edit, payload: &[u32], first: &[u32], sel: Sel) -> Option<Sel>
    requires { (length text.now ≤ text_limit) × (small_position sel.anchor ≡ true) × (small_position sel.head ≡ true) × (small_ok edit first.now [] ≡ true) × (few_ok text.now edit payload.now first.now [] ≡ true) × (ordered_ok edit ≡ true) }
    ensures { followed result ≡ both (shifted text.now edit payload.now first.now sel.anchor) (shifted text.now edit payload.now first.now sel.head) }
{
    let anchor = follow(text, edit, payload, first, sel.anchor)?;
    let head = follow(text, edit, payload, first, sel.head)?;
    Some(Sel::new(anchor, head))
}
