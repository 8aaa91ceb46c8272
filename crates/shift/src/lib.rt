// Where positions and selections stand once an edit has been made. The text is the one before the edit.
#![tactic(auto)]

mod follow;
mod judging;

ghost use Rattle.std.specs.Prelude.{true, [], ◌≡◌, ◌≤◌, length};
ghost use Rattle.text.specs.Text.{text_limit};
ghost use Rattle.edit.specs.Refusals.{small_ok, few_ok};
ghost use Rattle.shift.specs.Answers.{paper_shifted, followed};
ghost use Rattle.shift.specs.Call.{ordered_ok, ShiftPromised, sel_shifted, carried_over};

use crate::follow::{follow, follow_sel};
use crate::judging::judge;
use edit::{Edit, Refusal, View};
use select::Sel;
use text::Position;
use too_big::small_position;

// The position after the edit, or none where it cannot be followed.
pub fn shift_position(
    buffer: &[u32],
    view: View,
    edit: Edit,
    payload: &[u32],
    first: &[u32],
    second: &[u32],
    pos: Position,
) -> Result<Option<Position>, Refusal>
    ensures { ShiftPromised result buffer.now view.used edit payload.now first.now second.now pos }
{
    let used = view.used;
    let small = small_position(pos);
    judge(buffer, used, edit, payload, first, second, small)?;
    Ok(follow(&buffer[0..used], edit, payload, first, pos))
}

// The selection after the edit, or none where an end cannot be followed. Both ends are judged together.
pub fn shift_sel(
    buffer: &[u32],
    view: View,
    edit: Edit,
    payload: &[u32],
    first: &[u32],
    second: &[u32],
    sel: Sel,
) -> Result<Option<Sel>, Refusal>
    ensures { paper_shifted result ≡ sel_shifted buffer.now view.used edit payload.now first.now second.now sel }
{
    let used = view.used;
    let anchor = sel.anchor;
    let head = sel.head;
    let small = small_position(anchor) & small_position(head);
    judge(buffer, used, edit, payload, first, second, small)?;
    Ok(follow_sel(&buffer[0..used], edit, payload, first, sel))
}

// The selection after an edit that no row refuses, of an admitted text. One past the limit of numbers is dropped.
pub fn carry_sel(text: &[u32], edit: Edit, payload: &[u32], first: &[u32], sel: Sel) -> Option<Sel>
    requires { (length text.now ≤ text_limit) × (small_ok edit first.now [] ≡ true) × (few_ok text.now edit payload.now first.now [] ≡ true) × (ordered_ok edit ≡ true) }
    ensures { followed result ≡ carried_over text.now edit payload.now first.now sel }
{
    let anchor = sel.anchor;
    let head = sel.head;
    if !(small_position(anchor) & small_position(head)) {
        return None;
    }
    follow_sel(text, edit, payload, first, sel)
}
