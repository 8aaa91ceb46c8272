// A row split at columns, taken from the end of their list: what stands before a split is the row for the next one.
ghost use Rattle.std.specs.Prelude.{List, ◌≡◌, ℕ, ◌+◌, ◌-◌, ◌≤◌, ◌<◌, length, take, get_or};
ghost use Rattle.text.specs.Rows.{span};
ghost use Rattle.text.specs.Text.{is_lf, text_limit, renewed};
ghost use Rattle.edit.specs.declared.Edit.TheVariants.{SplitLines};
ghost use Rattle.edit.specs.Edits.{split, any_flag};
ghost use Rattle.edit.specs.Refusals.{is_space, spaces, within_ok};
ghost use Rattle.edit.specs.Call.{paper, plan_of, lent, room_of, outcome, finished};
ghost use Rattle.joins.specs.Turns.{split_turn};

use crate::{SplitPlan, SplitTurn, replace};
use edit::{Applied, Edit, Plan, Refusal, Room, View};
use splice::SPACE;
use text::{CharOffset, Col, LF, Position, Row, Span};

// A missing flag is no.
fn flag_at(flags: &[u32], k: usize) -> u32
    ensures { result ≡ get_or flags.now k 0 }
{
    flags.get(k).copied().unwrap_or(0)
}

// `resolve` has the same until `apply` stands on `work`.
fn any_flag(flags: &[u32]) -> bool
    ensures { result ≡ any_flag flags.now }
{
    flags.iter().any(|flag| *flag != 0)
}

// The split at a column of the row that stands from `start` up to `end`.
fn split_turn(text: &[u32], start: CharOffset, end: CharOffset, col: Col, flag: u32) -> SplitTurn
    requires { (start.0 ≤ end.0) × (end.0 ≤ length text.now) }
    ensures { result ≡ split_turn text.now start.0 end.0 col.0 flag }
{
    let wish = col.0 as usize;
    if end.0 - start.0 <= wish {
        return SplitTurn { at: end, gone: 0 };
    }
    let at = start.0 + wish;
    if (flag != 0) & (text[at] == SPACE) {
        return SplitTurn {
            at: CharOffset(at),
            gone: 1,
        };
    }
    SplitTurn {
        at: CharOffset(at),
        gone: 0,
    }
}

// Whether every column with a flag is within its row, and how long the text then is.
fn split_plan(text: &[u32], found: Span, cols: &[u32], flags: &[u32]) -> SplitPlan
    requires { (length text.now ≤ text_limit) × (found ≡ span is_lf text.now found.row.0) × (length cols.now ≤ 256) }
    ensures { result ≡ record { within = within_ok text.now (SplitLines found.row) cols.now flags.now; sizes = plan_of (split is_lf is_space spaces text.now found.row.0 cols.now flags.now) } }
{
    let start = found.start;
    let mut within = true;
    let mut used = text.len();
    let mut end = found.end.0;
    for k in (0..cols.len()).rev() {
        let col = Col(cols[k]);
        let flag = flag_at(flags, k);
        let turn = split_turn(text, start, CharOffset(end), col, flag);
        within = ((flag == 0) | (col.0 as usize <= end - start.0)) & within;
        used = used + 1 - turn.gone;
        end = turn.at.0;
    }
    let sizes = Plan {
        used,
        payload: 0,
        first: 0,
        second: 0,
    };
    SplitPlan { within, sizes }
}

// Splits the row at every column.
fn split_row(text: &mut [u32], used: usize, found: Span, cols: &[u32], flags: &[u32])
    requires { (used ≤ length text.old) × (found ≡ span is_lf (take used text.old) found.row.0) × (length (split is_lf is_space spaces (take used text.old) found.row.0 cols.now flags.now).text ≤ length text.old) }
    ensures { text.new ≡ renewed text.old used (split is_lf is_space spaces (take used text.old) found.row.0 cols.now flags.now).text }
{
    let start = found.start;
    let mut n = used;
    let mut end = found.end.0;
    for k in (0..cols.len()).rev() {
        let flag = flag_at(flags, k);
        let turn = split_turn(&text[0..n], start, CharOffset(end), Col(cols[k]), flag);
        let at = turn.at.0;
        replace(text, n, CharOffset(at), CharOffset(at + turn.gone), &[LF]);
        n = n + 1 - turn.gone;
        end = at;
    }
}

// SplitLines, once rows 1 to 4 do not refuse it.
pub fn split(
    text: &mut [u32],
    view: View,
    room: Room,
    row: Row,
    cols: &[u32],
    flags: &[u32],
) -> Result<Applied, Refusal>
    requires { (view.used ≤ length text.old) × (view.used ≤ text_limit) × (length cols.now ≤ 256) × (room.buffer ≡ length text.old) }
    ensures { (x f s op of os : List ℕ) → room_of (lent text.old x f s op of os) ≡ room → outcome (paper result) text.new op of os ≡ finished (within_ok (take view.used text.old) (SplitLines row) cols.now flags.now) view (lent text.old x f s op of os) (split is_lf is_space spaces (take view.used text.old) row.0 cols.now flags.now) }
{
    let used = view.used;
    let found = rows::find_row(&text[0..used], row);
    let plan = split_plan(&text[0..used], found, cols, flags);
    let sizes = plan.sizes;
    plan::judge(plan.within, room, sizes)?;
    // The row is split in room that is opened behind it, so that the text from there on moves once.
    let end = found.end.0;
    let more = sizes.used - used;
    splice::open_padded(text, used, CharOffset(end), more, &[]);
    let until = end + more;
    split_row(&mut text[0..until], end, found, cols, flags);
    let at = found.row;
    let col = Col(0);
    let next = plan::next_view(view, sizes.used, Position { row: at, col });
    Ok(Applied {
        view: next,
        inverse: Edit::JoinLines {
            row: at,
            count: cols.len() as u32,
            with_space: any_flag(flags),
        },
        payload: 0,
        first: 0,
        second: 0,
    })
}
