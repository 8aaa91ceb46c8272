// Shifts over insertions and over Char and Line deletes.
#![tactic(auto)]

ghost use Rattle.std.specs.Prelude.{true, ◌≡◌, ◌≤◌, length};
ghost use Rattle.text.specs.Rows.{upto};
ghost use Rattle.text.specs.Text.{text_limit};
ghost use Rattle.after.specs.After.{after_insert, after_delete_char, after_delete_lines};

use rows::{last_row, line_char_count};
use text::{Col, Position, Row};

// Where `pos` lands after the text is inserted at `at`. A position at `at` moves: the text lands before it.
#[tactic(auto, using(std::proofs::lemmas::Bool::Decides::nat_tests, text::proofs::Laws::last_le, text::proofs::Laws::len_le), unfolding(after::specs::After::after_insert))]
pub fn after_insert(pos: Position, at: Position, text: &[u32]) -> Position
    requires { (length text.now ≤ text_limit) × (pos.row.0 ≤ 2_000_000) × (pos.col.0 ≤ 2_000_000) }
    ensures { result ≡ after_insert pos at text.now }
{
    if pos < at {
        return pos;
    }
    let added = last_row(text);
    if pos.row != at.row {
        return Position {
            row: Row(pos.row.0 + added.0),
            col: pos.col,
        };
    }
    if added.0 == 0 {
        return Position {
            row: pos.row,
            col: Col(pos.col.0 + text.len() as u32),
        };
    }
    let tail = line_char_count(text, added);
    Position {
        row: Row(pos.row.0 + added.0),
        col: Col(tail.0 + (pos.col.0 - at.col.0)),
    }
}

// Where `pos` lands after what stands from `start` up to `end` is deleted.
#[tactic(auto, using(std::proofs::lemmas::Bool::Decides::nat_tests), unfolding(after::specs::After::after_delete_char))]
pub fn after_delete_char(pos: Position, start: Position, end: Position) -> Position
    requires { (upto start end ≡ true) × (pos.col.0 ≤ 1_000_000) × (start.col.0 ≤ 1_000_000) }
    ensures { result ≡ after_delete_char pos start end }
{
    if pos <= start {
        return pos;
    }
    if pos < end {
        return start;
    }
    if pos.row == end.row {
        return Position {
            row: start.row,
            col: Col(start.col.0 + (pos.col.0 - end.col.0)),
        };
    }
    Position {
        row: Row(pos.row.0 - (end.row.0 - start.row.0)),
        col: pos.col,
    }
}

// Where `pos` lands after the rows from `start` to `end` are deleted, both included.
#[tactic(auto, using(std::proofs::lemmas::Bool::Decides::nat_tests), unfolding(after::specs::After::after_delete_lines))]
pub fn after_delete_lines(pos: Position, start: Row, end: Row) -> Position
    requires { start.0 ≤ end.0 }
    ensures { result ≡ after_delete_lines pos start.0 end.0 }
{
    if pos.row < start {
        return pos;
    }
    if pos.row <= end {
        return Position {
            row: start,
            col: Col(0),
        };
    }
    Position {
        row: Row(pos.row.0 - (end.0 - start.0 + 1)),
        col: pos.col,
    }
}
