// Edits resolved against a text: their steps, and what is known of the answer before anything is stored.
#![tactic(auto)]

mod rowwise;

ghost use mathlib.Core.Path.{◌≡◌};
ghost use Prim.Native.Nat.{◌*◌, ◌≤◌};
ghost use lib.ListN.{length};
ghost use Rattle.text.specs.Text.{text_limit};
ghost use Rattle.steps.specs.Resolves.{Resolves};
ghost use Rattle.resolve.specs.Admits.{cut_first, most_steps, Admitted};

use edit::{Edit, MotionKind, extent};
use rowwise::{
    most_joins, resolve_block, resolve_chunks, resolve_join, resolve_put, resolve_split,
};
use single::{resolve_chars, resolve_insert, resolve_lines};
use steps::Resolved;

// How many steps the edit may come to, with `items` in its first list.
pub fn most_steps(edit: Edit, items: usize) -> usize
    ensures { result ≡ most_steps edit items }
{
    match edit {
        Edit::InsertChar { .. } => 1,
        Edit::InsertStr { .. } => 1,
        Edit::DeleteRange { start, end, kind } => match kind {
            MotionKind::Char => 1,
            MotionKind::Line => 1,
            MotionKind::Block => extent(start.row.0, end.row.0),
        },
        Edit::JoinLines { count, .. } => most_joins(count),
        Edit::SplitLines { .. } => items,
        Edit::Replace { .. } => 1,
        Edit::InsertBlock { .. } => items,
        Edit::DeleteBlockChunks { .. } => items,
    }
}

// The edit's steps. Of a Replace, which is stored in two moves, those of its cut.
pub fn resolve(
    text: &[u32],
    edit: Edit,
    payload: &[u32],
    first: &[u32],
    second: &[u32],
    steps: &mut [u32],
) -> Resolved
    requires { (length text.now ≤ text_limit) × Admitted edit payload.now first.now second.now text.now × (5 * most_steps edit (length first.now) ≤ length steps.old) }
    ensures { Resolves result steps.new (cut_first edit) payload.now first.now second.now text.now }
{
    match edit {
        Edit::InsertChar { at } => resolve_insert(text, at, payload, steps),
        Edit::InsertStr { at } => resolve_insert(text, at, payload, steps),
        Edit::DeleteRange { start, end, kind } => match kind {
            MotionKind::Char => resolve_chars(text, start, end, steps),
            MotionKind::Line => resolve_lines(text, start, end, steps),
            MotionKind::Block => resolve_block(text, start, end, steps),
        },
        Edit::JoinLines {
            row,
            count,
            with_space,
        } => resolve_join(text, row, count, with_space, steps),
        Edit::SplitLines { row } => resolve_split(text, row, first, second, steps),
        Edit::Replace { start, end } => resolve_chars(text, start, end, steps),
        Edit::InsertBlock { at } => resolve_put(text, at, first, steps),
        Edit::DeleteBlockChunks { at } => resolve_chunks(text, at, first, second, steps),
    }
}
