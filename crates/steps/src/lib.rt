// Edits as lists of steps: what they mean is in specs/. In a slice a step is five numbers: how many characters stay, how many go, how many the
// edit makes itself, how many of the payload come, and how many of those that go an inverse does not give back.
#![tactic(auto)]

ghost use mathlib.Core.Path.{◌≡◌};
ghost use mathlib.Core.List.{◌∷◌};
ghost use Prim.Native.Nat.{◌≤◌};
ghost use lib.ListN.{length, drop};

use edit::Edit;
use text::{CharOffset, Position};

// What an edit comes to in a text: how many steps, what comes where a step makes something, whether row 7 lets it be, the inverse, how long its
// lists are, and where the row starts that its columns count from. The cursor is settled, or clamped in the text that comes of the edit.
#[derive(Clone, Copy)]
pub struct Resolved {
    pub steps: usize,
    pub made: u32,
    pub within: bool,
    pub inverse: Edit,
    pub first: usize,
    pub second: usize,
    pub start: CharOffset,
    pub cursor: Position,
    pub settled: bool,
}

pub fn put_step(steps: &mut [u32], keep: u32, gone: u32, pad: u32, come: u32, lost: u32)
    requires { 5 ≤ length steps.old }
    ensures { steps.new ≡ keep ∷ gone ∷ pad ∷ come ∷ lost ∷ drop 5 steps.old }
{
    steps[..5].copy_from_slice(&[keep, gone, pad, come, lost]);
}
