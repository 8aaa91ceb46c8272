// The steps of splits, column by column.
#![tactic(auto)]

ghost use mathlib.Core.Path.{◌≡◌};
ghost use mathlib.Core.List.{List};
ghost use Prim.Native.Nat.{ℕ, ◌+◌, ◌-◌, ◌*◌, ◌≤◌};
ghost use lib.ListN.{length, take, drop};
ghost use Rattle.text.specs.Rows.{line};
ghost use Rattle.text.specs.Text.{is_lf, text_limit};
ghost use Rattle.edit.specs.Edits.{unspace};
ghost use Rattle.edit.specs.Refusals.{is_space, spaces, within_all};
ghost use Rattle.steps.specs.Steps.{ahead};
ghost use Rattle.steps.specs.Numbers.{steps_of, come_by};
ghost use Rattle.steps.specs.Kinds.{first_at, behind, split_steps};

use building::{first_of, one_of};
use splice::SPACE;
use steps::put_step;

// Where the first break of a split row stands, and whether every column with a flag is within its row.
#[derive(Clone, Copy)]
pub struct Breaks {
    pub first: u32,
    pub within: bool,
}

// How many go at a column of the first `end` characters: a space, if the column has a flag.
fn split_gone(row: &[u32], col: u32, end: u32, flag: u32) -> u32
    requires { end ≤ length row.now }
    ensures few { result ≤ 1 }
    ensures value { result ≡ length (drop col (take end row.now)) - length (unspace is_lf is_space spaces flag (drop col (take end row.now))) }
{
    u32::from(col < end && flag != 0 && row[col as usize] == SPACE)
}

// Of `n` steps those behind the first, after so many characters.
fn lower(steps: &mut [u32], n: usize, by: u32)
    requires { 5 * n ≤ length steps.old }
    ensures come { come_by (n - 1) (drop 5 steps.new) ≡ come_by (n - 1) (drop 5 steps.old) }
    ensures by_index { (x : List ℕ) → steps_of (n - 1) (drop 5 steps.new) x ≡ behind by (steps_of (n - 1) (drop 5 steps.old) x) }
{
    if 1 < n {
        steps[5] = steps[5].saturating_sub(by);
    }
}

// One step for each column of a row: each makes an LF. `carry` characters stand before the row.
pub fn split_steps(
    row: &[u32],
    carry: u32,
    cols: &[u32],
    flags: &[u32],
    n: usize,
    steps: &mut [u32],
) -> Breaks
    requires { (carry + length row.now ≤ text_limit) × (n ≡ length cols.now) × (n ≤ 256) × (5 * n ≤ length steps.old) }
    ensures near { result.first ≤ length row.now }
    ensures first { result.first ≡ first_at (length row.now) (split_steps is_lf is_space spaces row.now cols.now flags.now) }
    ensures within { (z : List ℕ) → result.within ≡ within_all (line row.now z) cols.now flags.now }
    ensures come { come_by n steps.new ≡ 0 }
    ensures steps { (x : List ℕ) → steps_of n steps.new x ≡ ahead carry (split_steps is_lf is_space spaces row.now cols.now flags.now) }
{
    if n == 0 {
        return Breaks {
            first: row.len() as u32,
            within: true,
        };
    }
    let skip = one_of(flags.len());
    let rest = split_steps(row, 0, &cols[1..], &flags[skip..], n - 1, &mut steps[5..]);
    let end = rest.first;
    let col = cols[0];
    let flag = first_of(flags);
    let at = col.min(end);
    let gone = split_gone(row, col, end, flag);
    lower(steps, n, at + gone);
    put_step(steps, carry + at, gone, 1, 0, gone);
    Breaks {
        first: at,
        within: ((flag == 0) | (col <= end)) & rest.within,
    }
}
