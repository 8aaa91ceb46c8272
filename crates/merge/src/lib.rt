// Selections in a flat slice, four numbers to each as C lends them: merged where they share a position.
#![tactic(auto)]

mod collapsing;

ghost use Rattle.std.specs.Prelude.{◌≡◌};
ghost use Rattle.merge.specs.Call.{outcome, merged_in};
ghost use Rattle.edit.specs.Call.{paper};

use crate::collapsing::collapse;
use edit::Refusal;
use sorting::{copy, sort};

// The most numbers that are merged, four to a selection.
pub const NUMBERS_LIMIT: usize = 4_096;

// The selections sorted by start, with those merged that share a position, at the front of `out`; how many
// are left.
pub fn merge_overlapping(sels: &[u32], out: &mut [u32]) -> Result<usize, Refusal>
    ensures { outcome (paper result) out.new ≡ merged_in sels.now out.old }
{
    let len = sels.len();
    if NUMBERS_LIMIT < len {
        return Err(Refusal::TooMany);
    }
    if len % 4 != 0 {
        return Err(Refusal::BadPayload);
    }
    if out.len() < len {
        return Err(Refusal::NoRecord);
    }
    let mut work = [0u32; NUMBERS_LIMIT];
    let mut spare = [0u32; NUMBERS_LIMIT];
    copy(sels, &mut work);
    sort(&mut work[0..len], len / 4, &mut spare);
    Ok(collapse(&work[0..len], len / 4, out))
}
