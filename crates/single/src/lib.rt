// Edits of one step, resolved: insertions, and deletes of characters and of lines.
#![tactic(auto)]

mod cuts;

ghost use mathlib.Core.Path.{◌≡◌};
ghost use mathlib.Core.List.{List, ◌∷◌};
ghost use Prim.Native.Nat.{ℕ, ◌-◌, ◌≤◌};
ghost use lib.ListN.{length, drop};
ghost use Rattle.text.specs.Text.{text_limit};
ghost use Rattle.edit.specs.declared.MotionKind.TheVariants.{Char, Line};
ghost use Rattle.edit.specs.declared.Edit.TheVariants.{InsertStr, DeleteRange};
ghost use Rattle.steps.specs.Resolves.{Resolves};
ghost use Rattle.single.specs.Cuts.{cut_resolved};

use cuts::{char_cut, line_cut};
use edit::{Edit, MotionKind};
use plan::end_after;
use rows::locate;
use splice::SPACE;
use steps::{Resolved, put_step};
use text::{CharOffset, Col, Position, Row};

// What is cut stands from `start` up to `end`.
#[derive(Clone, Copy)]
pub struct Cut {
    pub start: CharOffset,
    pub end: CharOffset,
}

// A cut of whole rows: the first of them, and the place where their text goes back in.
#[derive(Clone, Copy)]
pub struct LineCut {
    pub lo: Row,
    pub back: Position,
    pub cut: Cut,
}

// InsertStr, and InsertChar, which is the same.
pub fn resolve_insert(text: &[u32], at: Position, payload: &[u32], steps: &mut [u32]) -> Resolved
    requires { (length text.now ≤ text_limit) × (length payload.now ≤ text_limit) × (5 ≤ length steps.old) }
    ensures { (f s : List ℕ) → Resolves result steps.new (InsertStr at) payload.now f s text.now }
{
    let place = locate(text, at);
    let start = place.pos;
    let end = end_after(start, payload);
    put_step(steps, place.at.0 as u32, 0, 0, payload.len() as u32, 0);
    Resolved {
        steps: 1,
        made: SPACE,
        within: true,
        inverse: Edit::DeleteRange {
            start,
            end,
            kind: MotionKind::Char,
        },
        first: 0,
        second: 0,
        start: CharOffset(0),
        cursor: end,
        settled: true,
    }
}

// The one step that cuts, and the insertion of the cut text as its inverse.
fn resolve_cut(cut: Cut, back: Position, cursor: Position, steps: &mut [u32]) -> Resolved
    requires { (cut.start.0 ≤ cut.end.0) × (cut.end.0 ≤ text_limit) × (5 ≤ length steps.old) }
    ensures stored { steps.new ≡ cut.start.0 ∷ (cut.end.0 - cut.start.0) ∷ 0 ∷ 0 ∷ 0 ∷ drop 5 steps.old }
    ensures value { result ≡ cut_resolved back cursor }
{
    let from = cut.start.0;
    let gone = cut.end.0 - from;
    put_step(steps, from as u32, gone as u32, 0, 0, 0);
    Resolved {
        steps: 1,
        made: SPACE,
        within: true,
        inverse: Edit::InsertStr { at: back },
        first: 0,
        second: 0,
        start: CharOffset(0),
        cursor,
        settled: false,
    }
}

pub fn resolve_chars(text: &[u32], start: Position, end: Position, steps: &mut [u32]) -> Resolved
    requires { (length text.now ≤ text_limit) × (5 ≤ length steps.old) }
    ensures { (x f s : List ℕ) → Resolves result steps.new (DeleteRange start end Char) x f s text.now }
{
    let at = start.min(end);
    let cut = char_cut(text, start, end);
    resolve_cut(cut, at, at, steps)
}

pub fn resolve_lines(text: &[u32], start: Position, end: Position, steps: &mut [u32]) -> Resolved
    requires { (length text.now ≤ text_limit) × (5 ≤ length steps.old) }
    ensures { (x f s : List ℕ) → Resolves result steps.new (DeleteRange start end Line) x f s text.now }
{
    let rows = line_cut(text, start.row, end.row);
    let row = rows.lo;
    let back = rows.back;
    let cut = rows.cut;
    let cursor = Position { row, col: Col(0) };
    resolve_cut(cut, back, cursor, steps)
}
