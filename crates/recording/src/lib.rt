// What is known of an edit from its steps before anything is stored, and what its inverse records of them.
#![tactic(auto)]

ghost use mathlib.Core.Path.{◌≡◌};
ghost use mathlib.Core.List.{List, ◌++◌};
ghost use Prim.Native.Nat.{ℕ, ◌+◌, ◌-◌, ◌*◌, ◌≤◌, ◌<◌};
ghost use lib.ListN.{length, replicate};
ghost use lib.Seq.{paste};
ghost use Rattle.promise.specs.Slices.{over};
ghost use Rattle.text.specs.Rows.{last_row};
ghost use Rattle.text.specs.Text.{is_lf, text_limit};
ghost use Rattle.steps.specs.Steps.{cut_of, padded, given_back};
ghost use Rattle.steps.specs.Numbers.{steps_of, passed_by, laid_by, come_by, cut_by};
ghost use Rattle.recording.specs.Recorded.{five_at, sums_of, filled_up, columns, first_by, second_by, first_long, second_long};

use edit::{Edit, MotionKind, extent};
use text::LF;

// A step's numbers; `back` is how many of those that go an inverse gives back.
#[derive(Clone, Copy)]
struct Five {
    keep: usize,
    gone: usize,
    pad: usize,
    come: usize,
    back: usize,
}

// How long the text will be, and the cut that the inverse gives back; how many LFs go, and how many come.
#[derive(Clone, Copy)]
pub struct Sums {
    pub used: usize,
    pub cut: usize,
    pub breaks_gone: usize,
    pub breaks_come: usize,
}

fn five_at(steps: &[u32], i: usize) -> Five
    requires { 5 * i + 5 ≤ length steps.now }
    ensures small { (result.pad < 4_294_967_296) × (result.come < 4_294_967_296) × (result.back < 4_294_967_296) }
    ensures five { result ≡ five_at steps.now i }
{
    let at = 5 * i;
    let gone = steps[at + 1] as usize;
    let lost = steps[at + 4] as usize;
    Five {
        keep: steps[at] as usize,
        gone,
        pad: steps[at + 2] as usize,
        come: steps[at + 3] as usize,
        back: gone.saturating_sub(lost),
    }
}

// How many LFs there are; a payload may be longer than a text.
fn breaks_in(part: &[u32]) -> usize
    ensures { result ≡ last_row is_lf part.now }
{
    // Not `filter` and `count`, which are not vectorised.
    let mut count = 0;
    for x in part {
        if *x == LF {
            count += 1;
        }
    }
    count
}

// How many of `pad` that are made.
fn made_breaks(made: u32, pad: usize) -> usize
    ensures { result ≡ last_row is_lf (replicate pad made) }
{
    if made == LF {
        return pad;
    }
    0
}

// How many a step brings.
fn brought_breaks(made: u32, pad: usize, part: &[u32]) -> usize
    requires { pad < 4_294_967_296 }
    ensures { result ≡ last_row is_lf (replicate pad made ++ part.now) }
{
    made_breaks(made, pad) + breaks_in(part)
}

pub fn sum_steps(text: &[u32], steps: &[u32], n: usize, made: u32, payload: &[u32]) -> Sums
    requires { (5 * n ≤ length steps.now) × (n ≤ 256) × (passed_by n steps.now ≤ length text.now) × (length text.now ≤ text_limit) × (come_by n steps.now ≤ length payload.now) }
    ensures { result ≡ sums_of text.now steps.now n made payload.now }
{
    let mut laid = 0;
    let mut cut = 0;
    let mut going = 0;
    let mut coming = 0;
    let mut next = 0;
    let mut taken = 0;
    for i in 0..n {
        let s = five_at(steps, i);
        let from = next + s.keep;
        let to = from + s.gone;
        let till = taken + s.come;
        laid += s.keep + s.pad + s.come;
        cut += s.back;
        going += breaks_in(&text[from..to]);
        coming += brought_breaks(made, s.pad, &payload[taken..till]);
        next = to;
        taken = till;
    }
    Sums {
        used: laid + (text.len() - next),
        cut,
        breaks_gone: going,
        breaks_come: coming,
    }
}

// Copies what the steps give back to the front of `out`.
pub fn record_cut(text: &[u32], steps: &[u32], n: usize, out: &mut [u32])
    requires { (5 * n ≤ length steps.now) × (passed_by n steps.now ≤ length text.now) × (cut_by n steps.now ≤ length out.old) }
    ensures { (x : List ℕ) → out.new ≡ over (cut_of (steps_of n steps.now x) text.now) out.old }
{
    let mut next = 0;
    let mut done = 0;
    for i in 0..n {
        let s = five_at(steps, i);
        let end = next + s.keep + s.gone;
        let start = end - s.back;
        let till = done + s.back;
        out[done..till].copy_from_slice(&text[start..end]);
        next = end;
        done = till;
    }
}

// How much each step makes.
fn record_pads(steps: &[u32], n: usize, out: &mut [u32])
    requires { (5 * n ≤ length steps.now) × (n ≤ length out.old) }
    ensures { (x : List ℕ) → out.new ≡ over (padded (steps_of n steps.now x)) out.old }
{
    for i in 0..n {
        out[i] = steps[5 * i + 2];
    }
}

// How much each step gives back.
fn record_lengths(steps: &[u32], n: usize, out: &mut [u32])
    requires { (5 * n ≤ length steps.now) × (n ≤ length out.old) }
    ensures { (x : List ℕ) → out.new ≡ over (given_back (steps_of n steps.now x)) out.old }
{
    for i in 0..n {
        let s = five_at(steps, i);
        out[i] = s.back as u32;
    }
}

// Where each step stands in the woven text, from `start` on.
fn record_places(steps: &[u32], n: usize, start: usize, out: &mut [u32])
    requires { (5 * n ≤ length steps.now) × (n ≤ length out.old) × (laid_by n steps.now ≤ text_limit) }
    ensures { (x : List ℕ) → come_by n steps.now ≤ length x → out.new ≡ over (columns start (steps_of n steps.now x)) out.old }
{
    let mut at = 0;
    for i in 0..n {
        let s = five_at(steps, i);
        let place = at + s.keep;
        out[i] = place.saturating_sub(start) as u32;
        at = place + s.pad + s.come;
    }
}

// Zeros from `from` on, up to `to`.
fn zeros(out: &mut [u32], from: usize, to: usize)
    requires { to ≤ length out.old }
    ensures { out.new ≡ paste out.old from (replicate (to - from) 0) (to - from) }
{
    if from < to {
        out[from..to].fill(0);
    }
}

// How much each step gives back, and zeros up to `count` items for the rows that the text does not have.
fn record_chunks(steps: &[u32], n: usize, count: usize, out: &mut [u32])
    requires { (5 * n ≤ length steps.now) × (n ≤ length out.old) × (count ≤ length out.old) }
    ensures { (x : List ℕ) → out.new ≡ over (filled_up count (given_back (steps_of n steps.now x))) out.old }
{
    record_lengths(steps, n, out);
    zeros(out, n, count);
}

fn record_first(edit: Edit, steps: &[u32], n: usize, start: usize, first: &[u32], out: &mut [u32])
    requires { (5 * n ≤ length steps.now) × (laid_by n steps.now ≤ text_limit) × (first_long edit (length first.now) n ≤ length out.old) }
    ensures { (x : List ℕ) → come_by n steps.now ≤ length x → out.new ≡ over (first_by edit first.now start (steps_of n steps.now x)) out.old }
{
    match edit {
        Edit::InsertChar { .. } => {}
        Edit::InsertStr { .. } => {}
        Edit::DeleteRange {
            start: from,
            end: to,
            kind,
        } => match kind {
            MotionKind::Char => {}
            MotionKind::Line => {}
            MotionKind::Block => record_chunks(steps, n, extent(from.row.0, to.row.0), out),
        },
        Edit::JoinLines { .. } => record_places(steps, n, start, out),
        Edit::SplitLines { .. } => {}
        Edit::Replace { .. } => {}
        Edit::InsertBlock { .. } => out[..first.len()].copy_from_slice(first),
        Edit::DeleteBlockChunks { .. } => record_chunks(steps, n, first.len(), out),
    }
}

// `count` is how many items the edit's first list has.
fn record_second(edit: Edit, steps: &[u32], n: usize, count: usize, out: &mut [u32])
    requires { (5 * n ≤ length steps.now) × (second_long edit count n ≤ length out.old) }
    ensures { (x : List ℕ) → out.new ≡ over (second_by edit count (steps_of n steps.now x)) out.old }
{
    match edit {
        Edit::InsertChar { .. } => {}
        Edit::InsertStr { .. } => {}
        Edit::DeleteRange { .. } => {}
        Edit::JoinLines { .. } => record_pads(steps, n, out),
        Edit::SplitLines { .. } => {}
        Edit::Replace { .. } => {}
        Edit::InsertBlock { .. } => {
            record_pads(steps, n, out);
            zeros(out, n, count);
        }
        Edit::DeleteBlockChunks { .. } => {}
    }
}

// The inverse's two lists; a join's row starts at `start`.
pub fn record_lists(
    edit: Edit,
    steps: &[u32],
    n: usize,
    start: usize,
    first: &[u32],
    outfirst: &mut [u32],
    outsecond: &mut [u32],
)
    requires { (5 * n ≤ length steps.now) × (laid_by n steps.now ≤ text_limit) × (first_long edit (length first.now) n ≤ length outfirst.old) × (second_long edit (length first.now) n ≤ length outsecond.old) }
    ensures first { (x : List ℕ) → come_by n steps.now ≤ length x → outfirst.new ≡ over (first_by edit first.now start (steps_of n steps.now x)) outfirst.old }
    ensures second { (x : List ℕ) → outsecond.new ≡ over (second_by edit (length first.now) (steps_of n steps.now x)) outsecond.old }
{
    record_first(edit, steps, n, start, first, outfirst);
    record_second(edit, steps, n, first.len(), outsecond);
}
