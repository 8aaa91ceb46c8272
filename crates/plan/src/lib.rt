// What every worker does between finding what comes of an edit and storing it: rows 7 to 9 judged, the end of what goes in, the new view.
#![tactic(auto)]

ghost use Rattle.std.specs.Prelude.{◌≡◌, ℕ, ◌+◌, ◌%◌, ◌^◌, ◌≤◌, length};
ghost use Rattle.text.specs.Rows.{◌⊕◌, end_of};
ghost use Rattle.text.specs.Text.{is_lf, text_limit};
ghost use Rattle.edit.specs.Edits.{Edited};
ghost use Rattle.edit.specs.Call.{paper, verdict_of, result_tests, plan_of};

use edit::{Plan, Refusal, Room, View};
use text::{Col, Position, Row, TEXT_LIMIT};

// Rows 7 to 9, for whatever edit has this plan.
pub fn judge(within: bool, room: Room, plan: Plan) -> Result<(), Refusal>
    ensures { (d : Edited ℕ) → plan_of d ≡ plan → paper result ≡ verdict_of (result_tests within room d) }
{
    if !within {
        return Err(Refusal::BeyondRow);
    }
    if (room.buffer < plan.used) | (TEXT_LIMIT < plan.used) {
        return Err(Refusal::NoRoom);
    }
    if (room.payload < plan.payload) | (room.first < plan.first) | (room.second < plan.second) {
        return Err(Refusal::NoRecord);
    }
    Ok(())
}

// Where a text ends that stands at `pos`.
pub fn end_after(pos: Position, text: &[u32]) -> Position
    requires { (pos.row.0 ≤ text_limit) × (pos.col.0 ≤ text_limit) × (length text.now ≤ text_limit) }
    ensures { result ≡ pos ⊕ end_of is_lf text.now }
{
    let last = rows::last_row(text);
    let len = rows::line_char_count(text, last);
    if last.0 == 0 {
        return Position {
            row: pos.row,
            col: Col(pos.col.0 + len.0),
        };
    }
    Position {
        row: Row(pos.row.0 + last.0),
        col: len,
    }
}

// The view after an accepted edit.
pub fn next_view(view: View, used: usize, cursor: Position) -> View
    ensures { result ≡ record { used = used; cursor = cursor; changes = (view.changes + 1) % 2 ^ 64 } }
{
    view.renew(used, cursor, view.changes.wrapping_add(1))
}
