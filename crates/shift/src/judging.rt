// What a shift is refused for: rows 1 to 4, and 6.
ghost use Rattle.std.specs.Prelude.{◌≡◌};
ghost use Rattle.edit.specs.Call.{paper, verdict_of};
ghost use Rattle.shift.specs.Call.{ordered_range, ordered_ok, shift_tests};

use bad_payload::payload_good;
use edit::{Edit, MotionKind, Refusal};
use given::first_refusal;
use text::{Position, is_text};
use too_big::numbers_small;
use too_many::lists_few;

#[tactic(auto, using(std::proofs::lemmas::Bool::Decides::nat_tests), unfolding(crate::specs::Call::ordered_range))]
fn range_ordered(start: Position, end: Position, kind: MotionKind) -> bool
    ensures { result ≡ ordered_range start end kind }
{
    match kind {
        MotionKind::Char => start <= end,
        MotionKind::Line => start.row <= end.row,
        MotionKind::Block => true,
    }
}

#[tactic(auto, using(std::proofs::lemmas::Bool::Decides::nat_tests), unfolding(crate::specs::Call::ordered_ok))]
fn ordered(edit: Edit) -> bool
    ensures { result ≡ ordered_ok edit }
{
    match edit {
        Edit::InsertChar { .. } => true,
        Edit::InsertStr { .. } => true,
        Edit::DeleteRange { start, end, kind } => range_ordered(start, end, kind),
        Edit::JoinLines { .. } => true,
        Edit::SplitLines { .. } => true,
        Edit::Replace { start, end } => start <= end,
        Edit::InsertBlock { .. } => true,
        Edit::DeleteBlockChunks { .. } => true,
    }
}

// The first refusal that holds; `small` says whether what is to be shifted keeps the limit of numbers.
pub fn judge(
    buffer: &[u32],
    used: usize,
    edit: Edit,
    payload: &[u32],
    first: &[u32],
    second: &[u32],
    small: bool,
) -> Result<(), Refusal>
    ensures { paper result ≡ verdict_of (shift_tests buffer.now used edit payload.now first.now second.now small) }
{
    if !is_text(buffer, used) {
        return Err(Refusal::BadText);
    }
    let numbers = numbers_small(edit, first, second) & small;
    let few = lists_few(&buffer[0..used], edit, payload, first, second);
    let good = payload_good(edit, payload, first);
    first_refusal(numbers, few, good)?;
    if !ordered(edit) {
        return Err(Refusal::Reversed);
    }
    Ok(())
}
