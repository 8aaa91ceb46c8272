// The steps of joins, row by row.
#![tactic(auto)]

ghost use mathlib.Core.Path.{◌≡◌};
ghost use mathlib.Core.Bool.{cond, ◌&&◌};
ghost use mathlib.Core.List.{List};
ghost use Prim.Native.Nat.{ℕ, ◌+◌, ◌-◌, ◌*◌, ◌≤◌};
ghost use lib.ListN.{length};
ghost use Rattle.text.specs.Rows.{lines};
ghost use Rattle.text.specs.Text.{is_lf, text_limit};
ghost use Rattle.steps.specs.Steps.{ahead};
ghost use Rattle.steps.specs.Numbers.{steps_of, come_by};
ghost use Rattle.joining.specs.Joining.{filled, opens, join_from};

use rows::line_char_count;
use steps::put_step;
use text::{LF, Row};

// Whether a join adds a space: asked for, after a row that is not empty and before text whose first row is not.
#[tactic(auto, unfolding(crate::specs::Joining::opens))]
fn join_gap(spaced: bool, some: bool, text: &[u32]) -> u32
    ensures { result ≡ cond (spaced && some && opens is_lf text.now) 1 0 }
{
    u32::from(spaced && some && text.first().is_some_and(|x| *x != LF))
}

// One step for each of the first `n` rows that end with an LF. `carry` characters stand before the text; `some` says whether the
// row so far has any before it.
pub fn join_steps(
    text: &[u32],
    carry: u32,
    some: bool,
    spaced: bool,
    n: usize,
    steps: &mut [u32],
) -> usize
    requires { (carry + length text.now ≤ text_limit) × (n ≤ 256) × (5 * n ≤ length steps.old) }
    ensures few { result ≤ n }
    ensures come { come_by result steps.new ≡ 0 }
    ensures by_index { (x p : List ℕ) → filled p ≡ some → steps_of result steps.new x ≡ ahead carry (join_from 32 spaced p n (lines is_lf text.now)) }
{
    if n == 0 {
        return 0;
    }
    let len = line_char_count(text, Row(0)).0;
    let next = len as usize + 1;
    if text.len() < next {
        return 0;
    }
    let full = some | (0 < len);
    let pad = join_gap(spaced, full, &text[next..]);
    put_step(steps, carry + len, 1, pad, 0, 1);
    let more = join_steps(&text[next..], 0, full, spaced, n - 1, &mut steps[5..]);
    more + 1
}
