// Joins of a row with the rows below it.
ghost use Rattle.std.specs.Prelude.{true, List, ◌≡◌, ℕ, ◌+◌, ◌-◌, ◌≤◌, ◌<◌, length, take};
ghost use Rattle.text.specs.Rows.{last_row, span};
ghost use Rattle.text.specs.Text.{is_lf, text_limit};
ghost use Rattle.edit.specs.Edits.{joined};
ghost use Rattle.edit.specs.Refusals.{is_space, spaces};
ghost use Rattle.edit.specs.Call.{paper, lent, room_of, outcome, finished};
ghost use Rattle.joins.specs.Turns.{join_turn, join_plan, joins, slices, filled};

use crate::{JoinPlan, JoinTurn, replace};
use edit::{Applied, Edit, Plan, Refusal, Room, View};
use splice::SPACE;
use text::{CharOffset, Col, Position, Row, Span};

// The join of a row of `left` characters, whose LF stands at `at`, with the next row.
pub fn join_turn(text: &[u32], at: CharOffset, left: usize, spaced: bool) -> JoinTurn
    requires { (at.0 < length text.now) × (length text.now ≤ text_limit) }
    ensures { result ≡ join_turn text.now at.0 left spaced }
{
    let next = at.0 + 1;
    let len = rows::line_char_count(&text[next..], Row(0)).0 as usize;
    if spaced & (0 < left) & (0 < len) {
        return JoinTurn { gap: 1, len };
    }
    JoinTurn { gap: 0, len }
}

// How many joins there will be, where the last row joined ends, and how long the text then is.
fn join_plan(text: &[u32], found: Span, count: u32, spaced: bool) -> JoinPlan
    requires { (length text.now ≤ text_limit) × (found ≡ span is_lf text.now found.row.0) }
    ensures { result ≡ join_plan text.now found.row.0 count spaced }
{
    let mut used = text.len();
    let mut at = found.end.0;
    let mut left = at - found.start.0;
    let mut made: u32 = 0;
    // A cursor: each turn moves it by what it read.
    while (at < text.len()) & ((made == 0) | (made < count)) {
        let turn = join_turn(text, CharOffset(at), left, spaced);
        used = used - 1 + turn.gap;
        at = at + 1 + turn.len;
        left = left + turn.gap + turn.len;
        made += 1;
    }
    let sizes = Plan {
        used,
        payload: 0,
        first: made as usize,
        second: made as usize,
    };
    JoinPlan {
        end: CharOffset(at),
        sizes,
    }
}

// Makes so many joins, and records each.
fn join_rows(
    text: &mut [u32],
    used: usize,
    found: Span,
    count: usize,
    spaced: bool,
    cols: &mut [u32],
    flags: &mut [u32],
)
    requires { (used ≤ length text.old) × (used ≤ text_limit) × (found ≡ span is_lf (take used text.old) found.row.0) × (count ≤ last_row is_lf (take used text.old) - found.row.0) × (count ≤ length cols.old) × (count ≤ length flags.old) }
    ensures { slices text.new cols.new flags.new ≡ filled (slices text.old cols.old flags.old) used (joins (take used text.old) found.row.0 spaced count) }
{
    let space = [SPACE];
    let start = found.start.0;
    let mut n = used;
    let mut left = found.end.0 - start;
    for k in 0..count {
        let at = start + left;
        let turn = join_turn(&text[0..n], CharOffset(at), left, spaced);
        let gap = turn.gap;
        replace(text, n, CharOffset(at), CharOffset(at + 1), &space[0..gap]);
        cols[k] = left as u32;
        flags[k] = gap as u32;
        n = n - 1 + gap;
        left = left + gap + turn.len;
    }
}

// JoinLines, once rows 1 to 4 do not refuse it.
pub fn join(
    text: &mut [u32],
    view: View,
    room: Room,
    row: Row,
    count: u32,
    spaced: bool,
    cols: &mut [u32],
    flags: &mut [u32],
) -> Result<Applied, Refusal>
    requires { (view.used ≤ length text.old) × (view.used ≤ text_limit) × (room.first ≡ length cols.old) × (room.second ≡ length flags.old) × (room.buffer ≡ length text.old) }
    ensures { (x f s op : List ℕ) → room_of (lent text.old x f s op cols.old flags.old) ≡ room → outcome (paper result) text.new op cols.new flags.new ≡ finished true view (lent text.old x f s op cols.old flags.old) (joined is_lf is_space spaces (take view.used text.old) row.0 count spaced) }
{
    let used = view.used;
    let found = rows::find_row(&text[0..used], row);
    let plan = join_plan(&text[0..used], found, count, spaced);
    let sizes = plan.sizes;
    plan::judge(true, room, sizes)?;
    // The joins are made in the text up to `end`, so that what stands behind it moves once.
    let end = plan.end.0;
    join_rows(
        &mut text[0..end],
        end,
        found,
        sizes.first,
        spaced,
        cols,
        flags,
    );
    let gone = used - sizes.used;
    let kept = end - gone;
    splice::remove(text, used, CharOffset(kept), CharOffset(end));
    let at = found.row;
    let col = Col(0);
    let next = plan::next_view(view, sizes.used, Position { row: at, col });
    Ok(Applied {
        view: next,
        inverse: Edit::SplitLines { row: at },
        payload: 0,
        first: sizes.first,
        second: sizes.second,
    })
}
