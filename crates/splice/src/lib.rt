// The splice: in a lent buffer a gap is opened for characters that come, and closed over those that go. The functions
// below are for callers that have planned the splice and know that it fits.
#![tactic(auto)]

ghost use Rattle.std.specs.Prelude.{◌≡◌, ◌++◌, ◌+◌, ◌-◌, ◌≤◌, length, take, drop, replicate};
ghost use Rattle.std.proofs.Math.Seq.{paste};
ghost use Rattle.splice.specs.Splice.{gap, gap_opened, gap_removed, gap_closed};

use text::CharOffset;

pub const SPACE: u32 = 32;

// Moves the first `count` places up by `by`.
pub fn shift_up(tail: &mut [u32], count: usize, by: usize)
    requires { by + count ≤ length tail.old }
    ensures { tail.new ≡ paste tail.old by tail.old count }
{
    tail.copy_within(0..count, by);
}

// Moves the `count` places from `by` on down to the front.
pub fn shift_down(tail: &mut [u32], count: usize, by: usize)
    requires { by + count ≤ length tail.old }
    ensures { tail.new ≡ take count (drop by tail.old) ++ drop count tail.old }
{
    tail.copy_within(by..by + count, 0);
}

// Copies `from` to the places from `at` on.
pub fn copy_in(to: &mut [u32], at: CharOffset, from: &[u32])
    requires { at.0 + length from.now ≤ length to.old }
    ensures { to.new ≡ paste to.old at.0 from.now (length from.now) }
{
    // Not `copy_from_slice`: it calls memmove, and the archive calls memcpy and memset alone.
    let start = at.0;
    for (i, x) in from.iter().enumerate() {
        to[start + i] = *x;
    }
}

pub fn fill(text: &mut [u32], at: CharOffset, count: usize, value: u32)
    requires { at.0 + count ≤ length text.old }
    ensures { text.new ≡ paste text.old at.0 (replicate count value) count }
{
    text[at.0..at.0 + count].fill(value);
}

// Puts so many spaces in at `at`, and the payload behind them.
pub fn open_padded(text: &mut [u32], used: usize, at: CharOffset, pad: usize, payload: &[u32])
    requires { (at.0 ≤ used) × (used + (pad + length payload.now) ≤ length text.old) }
    ensures { text.new ≡ gap_opened text.old used at.0 (replicate pad 32 ++ payload.now) }
{
    let start = at.0;
    shift_up(&mut text[start..], used - start, pad + payload.len());
    fill(text, at, pad, SPACE);
    copy_in(text, CharOffset(start + pad), payload);
}

// Puts the payload in at `at`.
pub fn open_gap(text: &mut [u32], used: usize, at: CharOffset, payload: &[u32])
    requires { (at.0 ≤ used) × (used + length payload.now ≤ length text.old) }
    ensures { text.new ≡ gap_opened text.old used at.0 payload.now }
{
    open_padded(text, used, at, 0, payload);
}

// Takes out what stands from `start` up to `end`.
pub fn remove(text: &mut [u32], used: usize, start: CharOffset, end: CharOffset)
    requires { (start.0 ≤ end.0) × (end.0 ≤ used) × (used ≤ length text.old) }
    ensures { text.new ≡ gap_removed text.old used start.0 end.0 }
{
    let first = start.0;
    let last = end.0;
    if first == last {
        return;
    }
    shift_down(&mut text[first..], used - last, last - first);
    fill(text, CharOffset(first + (used - last)), last - first, 0);
}

// Cuts out what stands from `start` up to `end`, to the front of `cut`.
pub fn close_gap(text: &mut [u32], used: usize, start: CharOffset, end: CharOffset, cut: &mut [u32])
    requires { (start.0 ≤ end.0) × (end.0 ≤ used) × (used ≤ length text.old) × (end.0 - start.0 ≤ length cut.old) }
    ensures { gap text.new cut.new ≡ gap_closed text.old used start.0 end.0 cut.old }
{
    let first = start.0;
    let last = end.0;
    copy_in(cut, CharOffset(0), &text[first..last]);
    remove(text, used, start, end);
}
