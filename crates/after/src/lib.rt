// Where a position lands after each edit, by the original's functions: the definitions, their laws, and the function for joins. The text is the
// one before the edit.
#![tactic(auto)]

ghost use Rattle.std.specs.Prelude.{◌≡◌, suc, ◌+◌, ◌-◌, ◌≤◌, ◌<◌, min, max, length, drop, get_or};
ghost use Rattle.text.specs.Rows.{lines, last_row, row_len};
ghost use Rattle.text.specs.Text.{is_lf, text_limit};
ghost use Rattle.after.specs.After.{start_cols, after_join};

use joins::join_turn;
use rows::{find_row, last_row};
use text::{CharOffset, Col, Position, Row};

// How many joins are made of a row with those below it.
fn joins_made(last: Row, row: Row, count: u32) -> u32
    ensures { result ≡ min (max count 1) (last.0 - row.0) }
{
    count.max(1).min(last.0.saturating_sub(row.0))
}

// The column at which the text of the row `down` rows below this one starts, once they are all joined.
fn start_col(text: &[u32], row: Row, down: u32, spaced: bool) -> Col
    requires { (length text.now ≤ text_limit) × (0 < down) × (row.0 + down ≤ last_row is_lf text.now) }
    ensures { (result.0 ≡ get_or (start_cols spaced (row_len is_lf text.now row.0) (drop (suc row.0) (lines is_lf text.now))) (down - 1) 0) × (result.0 ≤ text_limit) }
{
    let found = find_row(text, row);
    let mut at = found.end.0;
    let mut left = at - found.start.0;
    let mut col = 0;
    for _ in 0..down {
        let turn = join_turn(text, CharOffset(at), left, spaced);
        col = left + turn.gap;
        left = col + turn.len;
        at = at + 1 + turn.len;
    }
    Col(col as u32)
}

// Where `pos` lands after so many rows are joined onto `row`. The row itself keeps its columns.
pub fn after_join(pos: Position, row: Row, count: u32, spaced: bool, text: &[u32]) -> Position
    requires { (length text.now ≤ text_limit) × (pos.col.0 ≤ 1_000_000) }
    ensures { result ≡ after_join pos row.0 count spaced text.now }
{
    if pos.row <= row {
        return pos;
    }
    let down = pos.row.0 - row.0;
    let joined = joins_made(last_row(text), row, count);
    if joined < down {
        return Position {
            row: Row(pos.row.0 - joined),
            col: pos.col,
        };
    }
    let start = start_col(text, row, down, spaced);
    Position {
        row,
        col: Col(start.0 + pos.col.0),
    }
}
