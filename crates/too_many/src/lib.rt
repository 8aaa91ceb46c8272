// Refusal 3: lists, spans, joins and payloads over their limits.
#![tactic(auto)]

ghost use Rattle.std.specs.Prelude.{◌≡◌, ◌-◌, ◌≤◌, min, max, leb, length};
ghost use Rattle.text.specs.Rows.{last_row};
ghost use Rattle.text.specs.Text.{is_lf, text_limit};
ghost use Rattle.edit.specs.Refusals.{few, short, few_rows, few_ok};

use edit::{Edit, MotionKind, extent};
use rows::last_row;
use text::{Position, Row, TEXT_LIMIT};

// The most items that a list has, rows that a block delete spans, and joins that a join makes.
const LIST_LIMIT: usize = 256;

fn few(list: &[u32]) -> bool
    ensures { result ≡ few list.now }
{
    list.len() <= LIST_LIMIT
}

fn short(payload: &[u32]) -> bool
    ensures { result ≡ short payload.now }
{
    payload.len() <= TEXT_LIMIT
}

fn rows_few(start: Position, end: Position, kind: MotionKind) -> bool
    ensures { result ≡ few_rows start end kind }
{
    match kind {
        MotionKind::Char => true,
        MotionKind::Line => true,
        MotionKind::Block => extent(start.row.0, end.row.0) <= LIST_LIMIT,
    }
}

fn joins_few(text: &[u32], row: Row, count: u32) -> bool
    requires { length text.now ≤ text_limit }
    ensures { result ≡ leb (min (max count 1) (last_row is_lf text.now - min row.0 (last_row is_lf text.now))) 256 }
{
    let last = last_row(text);
    let first = row.min(last);
    (count as usize <= LIST_LIMIT) | ((last.0 - first.0) as usize <= LIST_LIMIT)
}

pub fn lists_few(text: &[u32], edit: Edit, payload: &[u32], first: &[u32], second: &[u32]) -> bool
    requires { length text.now ≤ text_limit }
    ensures { result ≡ few_ok text.now edit payload.now first.now second.now }
{
    match edit {
        Edit::InsertChar { .. } => short(payload),
        Edit::InsertStr { .. } => short(payload),
        Edit::DeleteRange { start, end, kind } => rows_few(start, end, kind),
        Edit::JoinLines { row, count, .. } => joins_few(text, row, count),
        Edit::SplitLines { .. } => few(first) & few(second),
        Edit::Replace { .. } => short(payload),
        Edit::InsertBlock { .. } => few(first) & short(payload),
        Edit::DeleteBlockChunks { .. } => few(first) & few(second),
    }
}
