// The steps of chunk deletions, row by row.
#![tactic(auto)]

ghost use mathlib.Core.Path.{◌≡◌};
ghost use mathlib.Core.List.{List};
ghost use Prim.Native.Nat.{ℕ, ◌+◌, ◌-◌, ◌*◌, ◌≤◌, min};
ghost use lib.ListN.{length, get_or};
ghost use Rattle.text.specs.Rows.{lines};
ghost use Rattle.text.specs.Text.{is_lf, text_limit};
ghost use Rattle.steps.specs.Steps.{ahead};
ghost use Rattle.steps.specs.Numbers.{steps_of, come_by};
ghost use Rattle.steps.specs.Kinds.{cut_steps};

use building::{first_of, one_of};
use rows::line_char_count;
use steps::put_step;
use text::{Col, Row};

// A row's cut: where it begins, where the chunk in it does, and where both end.
#[derive(Clone, Copy)]
struct RowCut {
    from: u32,
    chunk: u32,
    to: u32,
}

fn row_cut(len: Col, col: Col, width: u32, pads: &[u32]) -> RowCut
    ensures { (result.from ≡ min (col.0 - get_or pads.now 0 0) len.0) × (result.chunk ≡ min col.0 len.0) × (result.to ≡ min (col.0 + width) len.0) }
{
    let pad = first_of(pads);
    RowCut {
        from: col.0.saturating_sub(pad).min(len.0),
        chunk: col.0.min(len.0),
        to: col.0.saturating_add(width).min(len.0),
    }
}

// One step for each row of the text that has a chunk cut; `carry` characters stand before the text.
pub fn cut_steps(
    text: &[u32],
    carry: u32,
    col: Col,
    widths: &[u32],
    pads: &[u32],
    n: usize,
    steps: &mut [u32],
) -> usize
    requires { (carry + length text.now ≤ text_limit) × (n ≡ length widths.now) × (n ≤ 256) × (5 * n ≤ length steps.old) }
    ensures few { result ≤ n }
    ensures come { come_by result steps.new ≡ 0 }
    ensures by_index { (x : List ℕ) → steps_of result steps.new x ≡ ahead carry (cut_steps col.0 widths.now pads.now (lines is_lf text.now)) }
{
    if n == 0 {
        return 0;
    }
    let len = line_char_count(text, Row(0));
    let cut = row_cut(len, col, widths[0], pads);
    let from = cut.from;
    let to = cut.to;
    put_step(steps, carry + from, to - from, 0, 0, cut.chunk - from);
    let end = len.0;
    let next = end as usize + 1;
    if text.len() < next {
        return 1;
    }
    let left = end - to + 1;
    let skip = one_of(pads.len());
    let more = cut_steps(
        &text[next..],
        left,
        col,
        &widths[1..],
        &pads[skip..],
        n - 1,
        &mut steps[5..],
    );
    more + 1
}
