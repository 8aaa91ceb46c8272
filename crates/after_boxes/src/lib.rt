// Shifts over edits of blocks.
#![tactic(auto)]

ghost use Rattle.std.specs.Prelude.{◌≡◌, ◌≤◌, T};
ghost use Rattle.text.specs.Text.{all};
ghost use Rattle.edit.specs.Refusals.{small};
ghost use Rattle.after.specs.After.{after_delete_block, after_insert_block, after_delete_block_chunks};

use text::{Col, Position};

// Where `pos` lands after the rectangle between two corners is deleted.
#[tactic(auto, using(std::proofs::lemmas::Bool::Decides::nat_tests), unfolding(after::specs::After::after_delete_block))]
pub fn after_delete_block(pos: Position, start: Position, end: Position) -> Position
    ensures { result ≡ after_delete_block pos start end }
{
    let top = start.row.min(end.row);
    let bottom = start.row.max(end.row);
    let left = start.col.min(end.col);
    let right = start.col.max(end.col);
    if pos.row < top || bottom < pos.row || pos.col < left {
        return pos;
    }
    if right < pos.col {
        return Position {
            row: pos.row,
            col: Col(pos.col.0 - (right.0 - left.0 + 1)),
        };
    }
    Position {
        row: pos.row,
        col: left,
    }
}

// Where `pos` lands after chunks of these lengths are put in at `at` and below it.
#[tactic(auto, using(std::proofs::lemmas::Bool::Decides::nat_tests, after::proofs::Rectangles::small_at), unfolding(after::specs::After::after_insert_block))]
pub fn after_insert_block(pos: Position, at: Position, lens: &[u32]) -> Position
    requires { (pos.col.0 ≤ 1_000_000) × T (all small lens.now) }
    ensures { result ≡ after_insert_block pos at lens.now }
{
    if pos.row < at.row || pos.col < at.col {
        return pos;
    }
    let k = (pos.row.0 - at.row.0) as usize;
    let Some(len) = lens.get(k) else {
        return pos;
    };
    Position {
        row: pos.row,
        col: Col(pos.col.0 + *len),
    }
}

// Where `pos` lands after chunks of these widths are deleted at `at` and below it.
#[tactic(auto, using(std::proofs::lemmas::Bool::Decides::nat_tests), unfolding(after::specs::After::after_delete_block_chunks))]
pub fn after_delete_block_chunks(pos: Position, at: Position, widths: &[u32]) -> Position
    ensures { result ≡ after_delete_block_chunks pos at widths.now }
{
    if pos.row < at.row || pos.col <= at.col {
        return pos;
    }
    let i = (pos.row.0 - at.row.0) as usize;
    let Some(width) = widths.get(i) else {
        return pos;
    };
    if *width <= pos.col.0 - at.col.0 {
        return Position {
            row: pos.row,
            col: Col(pos.col.0 - *width),
        };
    }
    Position {
        row: pos.row,
        col: at.col,
    }
}
