// The steps of a block insertion, row by row, and what the builders of steps for other edits of rows share with it.
#![tactic(auto)]

ghost use mathlib.Core.Path.{◌≡◌};
ghost use mathlib.Core.List.{List};
ghost use Prim.Native.Nat.{ℕ, ◌+◌, ◌-◌, ◌*◌, ◌≤◌, min};
ghost use lib.ListN.{length, get_or};
ghost use Rattle.text.specs.Rows.{lines};
ghost use Rattle.text.specs.Text.{is_lf, text_limit};
ghost use Rattle.edit.specs.Edits.{pieces};
ghost use Rattle.edit.specs.Refusals.{sum};
ghost use Rattle.steps.specs.Steps.{ahead};
ghost use Rattle.steps.specs.Numbers.{steps_of, come_by};
ghost use Rattle.steps.specs.Kinds.{put_steps};

use rows::line_char_count;
use steps::put_step;
use text::{Col, Row};

// One step for each row of the text that gets a chunk; `carry` characters stand before the text.
pub fn put_steps(
    text: &[u32],
    carry: u32,
    col: Col,
    lens: &[u32],
    n: usize,
    steps: &mut [u32],
) -> usize
    requires { (carry + length text.now ≤ text_limit) × (n ≡ length lens.now) × (n ≤ 256) × (5 * n ≤ length steps.old) }
    ensures few { result ≤ n }
    ensures come { come_by result steps.new ≤ sum lens.now }
    ensures by_index { (x : List ℕ) → steps_of result steps.new x ≡ ahead carry (put_steps col.0 (pieces lens.now x) (lines is_lf text.now)) }
{
    if n == 0 {
        return 0;
    }
    let len = line_char_count(text, Row(0));
    let within = col.min(len).0;
    let end = len.0;
    put_step(steps, carry + within, 0, col.0 - within, lens[0], 0);
    let next = end as usize + 1;
    if text.len() < next {
        return 1;
    }
    let left = end - within + 1;
    let more = put_steps(&text[next..], left, col, &lens[1..], n - 1, &mut steps[5..]);
    more + 1
}

// The first item of a list; a missing one is 0.
pub fn first_of(list: &[u32]) -> u32
    ensures { result ≡ get_or list.now 0 0 }
{
    list.first().copied().unwrap_or(0)
}

// How many items of a list of n the first row or column takes.
pub fn one_of(n: usize) -> usize
    ensures { result ≡ min n 1 }
{
    n.min(1)
}
