// The flat edits: those that cut one stretch of the text, or put a payload in at one place, or both. The callers have judged rows 1 to 4.
#![tactic(auto)]

mod cuts;

ghost use Rattle.std.specs.Prelude.{◌≡◌, true, List, ℕ, ◌≤◌, length, take};
ghost use Rattle.text.specs.Text.{is_lf, text_limit};
ghost use Rattle.edit.specs.Edits.{Edited, inserted, chars_deleted, lines_deleted, replaced};
ghost use Rattle.edit.specs.Call.{paper, verdict_of, outcome, lent, room_of, result_tests, plan_of, finished};

use cuts::{char_cut, line_cut};
use edit::{Applied, Edit, MotionKind, Plan, Refusal, Room, View};
use plan::{end_after, judge, next_view};
use rows::{clamp, last_row, locate};
use splice::{close_gap, open_gap};
use text::{CharOffset, Col, Position, Row};

// What is cut stands from `start` up to `end`.
#[derive(Clone, Copy)]
pub struct Cut {
    pub start: CharOffset,
    pub end: CharOffset,
}

// A cut of whole rows: the first of them, and the place where their text goes back in.
#[derive(Clone, Copy)]
pub struct LineCut {
    pub lo: Row,
    pub back: Position,
    pub cut: Cut,
}

// Rows 8 and 9 for a text of this length and an inverse with a payload of that: a flat edit's inverse has no lists.
fn judge_flat(room: Room, used: usize, payload: usize) -> Result<(), Refusal>
    ensures { (d : Edited ℕ) → plan_of d ≡ record { used = used; payload = payload; first = 0; second = 0 } → paper result ≡ verdict_of (result_tests true room d) }
{
    judge(
        true,
        room,
        Plan {
            used,
            payload,
            first: 0,
            second: 0,
        },
    )
}

// InsertStr and InsertChar.
pub fn insert(
    text: &mut [u32],
    view: View,
    room: Room,
    at: Position,
    payload: &[u32],
) -> Result<Applied, Refusal>
    requires { (view.used ≤ length text.old) × (view.used ≤ text_limit) × (length payload.now ≤ text_limit) × (room.buffer ≡ length text.old) }
    ensures { (x f s op of os : List ℕ) → room_of (lent text.old x f s op of os) ≡ room → outcome (paper result) text.new op of os ≡ finished true view (lent text.old x f s op of os) (inserted is_lf (take view.used text.old) at payload.now) }
{
    let used = view.used;
    let size = used + payload.len();
    judge_flat(room, size, 0)?;
    let place = locate(&text[0..used], at);
    let start = place.pos;
    let end = end_after(start, payload);
    open_gap(text, used, place.at, payload);
    Ok(Applied {
        view: next_view(view, size, end),
        inverse: Edit::DeleteRange {
            start,
            end,
            kind: MotionKind::Char,
        },
        payload: 0,
        first: 0,
        second: 0,
    })
}

pub fn delete_chars(
    text: &mut [u32],
    view: View,
    room: Room,
    start: Position,
    end: Position,
    out: &mut [u32],
) -> Result<Applied, Refusal>
    requires { (view.used ≤ length text.old) × (view.used ≤ text_limit) × (room.buffer ≡ length text.old) × (room.payload ≡ length out.old) }
    ensures { (x f s of os : List ℕ) → room_of (lent text.old x f s out.old of os) ≡ room → outcome (paper result) text.new out.new of os ≡ finished true view (lent text.old x f s out.old of os) (chars_deleted is_lf (take view.used text.old) start end) }
{
    let used = view.used;
    let at = start.min(end);
    let cut = char_cut(&text[0..used], start, end);
    let gone = cut.end.0 - cut.start.0;
    let left = used - gone;
    judge_flat(room, left, gone)?;
    close_gap(text, used, cut.start, cut.end, out);
    let cursor = clamp(&text[0..left], at);
    Ok(Applied {
        view: next_view(view, left, cursor),
        inverse: Edit::InsertStr { at },
        payload: gone,
        first: 0,
        second: 0,
    })
}

pub fn delete_lines(
    text: &mut [u32],
    view: View,
    room: Room,
    start: Position,
    end: Position,
    out: &mut [u32],
) -> Result<Applied, Refusal>
    requires { (view.used ≤ length text.old) × (view.used ≤ text_limit) × (room.buffer ≡ length text.old) × (room.payload ≡ length out.old) }
    ensures { (x f s of os : List ℕ) → room_of (lent text.old x f s out.old of os) ≡ room → outcome (paper result) text.new out.new of os ≡ finished true view (lent text.old x f s out.old of os) (lines_deleted is_lf (take view.used text.old) start end) }
{
    let used = view.used;
    let rows = line_cut(&text[0..used], start.row, end.row);
    let back = rows.back;
    let cut = rows.cut;
    let gone = cut.end.0 - cut.start.0;
    let left = used - gone;
    judge_flat(room, left, gone)?;
    close_gap(text, used, cut.start, cut.end, out);
    let row = rows.lo.min(last_row(&text[0..left]));
    let cursor = Position { row, col: Col(0) };
    Ok(Applied {
        view: next_view(view, left, cursor),
        inverse: Edit::InsertStr { at: back },
        payload: gone,
        first: 0,
        second: 0,
    })
}

// The cut and the insertion are two splices, each found in the text as it then stands: where the start lies past its row's
// end they do not touch.
pub fn replace(
    text: &mut [u32],
    view: View,
    room: Room,
    start: Position,
    end: Position,
    payload: &[u32],
    out: &mut [u32],
) -> Result<Applied, Refusal>
    requires { (view.used ≤ length text.old) × (view.used ≤ text_limit) × (length payload.now ≤ text_limit) × (room.buffer ≡ length text.old) × (room.payload ≡ length out.old) }
    ensures { (x f s of os : List ℕ) → room_of (lent text.old x f s out.old of os) ≡ room → outcome (paper result) text.new out.new of os ≡ finished true view (lent text.old x f s out.old of os) (replaced is_lf (take view.used text.old) start end payload.now) }
{
    let used = view.used;
    let from = start.min(end);
    let cut = char_cut(&text[0..used], start, end);
    let gone = cut.end.0 - cut.start.0;
    let left = used - gone;
    let size = left + payload.len();
    judge_flat(room, size, gone)?;
    close_gap(text, used, cut.start, cut.end, out);
    let place = locate(&text[0..left], from);
    let begin = place.pos;
    let to = end_after(begin, payload);
    open_gap(text, left, place.at, payload);
    Ok(Applied {
        view: next_view(view, size, to),
        inverse: Edit::Replace {
            start: begin,
            end: to,
        },
        payload: gone,
        first: 0,
        second: 0,
    })
}
