// The workers for JoinLines and SplitLines. Each finds what comes of its edit first, and stores once nothing refuses it.
#![tactic(auto)]

mod joining;
mod splitting;

ghost use Rattle.std.specs.Prelude.{◌≡◌, ◌+◌, ◌-◌, ◌≤◌, length, take};
ghost use Rattle.text.specs.Rows.{spliced};
ghost use Rattle.text.specs.Text.{renewed};

use edit::Plan;
pub use joining::{join, join_turn};
pub use splitting::split;
use text::CharOffset;

// What a join puts in place of an LF, and how long the row is that it adds.
#[derive(Clone, Copy)]
pub struct JoinTurn {
    pub gap: usize,
    pub len: usize,
}

// Where the last row that is joined ends, and what rows 8 and 9 are about.
#[derive(Clone, Copy)]
struct JoinPlan {
    end: CharOffset,
    sizes: Plan,
}

// Where a split puts its LF, and how many characters go there.
#[derive(Clone, Copy)]
struct SplitTurn {
    at: CharOffset,
    gone: usize,
}

// Whether every column with a flag is within its row, and what rows 8 and 9 are about.
#[derive(Clone, Copy)]
struct SplitPlan {
    within: bool,
    sizes: Plan,
}

// Puts `with` in place of what stands from `start` up to `end`, where at most one character comes and at most one goes.
fn replace(text: &mut [u32], used: usize, start: CharOffset, end: CharOffset, with: &[u32])
    requires { (start.0 ≤ end.0) × (end.0 ≤ start.0 + 1) × (end.0 ≤ used) × (used ≤ length text.old) × (length with.now ≤ 1) × (used + length with.now ≤ length text.old + (end.0 - start.0)) }
    ensures { text.new ≡ renewed text.old used (spliced (take used text.old) start.0 end.0 with.now) }
{
    if start == end {
        splice::open_gap(text, used, start, with);
        return;
    }
    if with.is_empty() {
        splice::remove(text, used, start, end);
        return;
    }
    splice::copy_in(text, start, with);
}
