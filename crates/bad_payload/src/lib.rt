// Refusal 4: payloads that an edit cannot put in.
#![tactic(auto)]

ghost use Rattle.std.specs.Prelude.{not, ◌≡◌, eqb};
ghost use Rattle.text.specs.Text.{is_lf, all};
ghost use Rattle.edit.specs.Refusals.{sum, payload_ok};

use edit::Edit;
use text::{LF, all_admissible};

// Looks at every character: without an early exit the loop is vectorised. One with `all_admissible` by a closure would be no plainer.
fn no_lf(payload: &[u32]) -> bool
    ensures { result ≡ all (λ c. not (is_lf c)) payload.now }
{
    let mut plain = true;
    for x in payload {
        plain &= *x != LF;
    }
    plain
}

// Takes from what is left of the total, so that no sum has to fit.
pub fn sums_to(list: &[u32], total: usize) -> bool
    ensures { result ≡ eqb (sum list.now) total }
{
    let mut left = total;
    for item in list {
        let item = *item as usize;
        if left < item {
            return false;
        }
        left -= item;
    }
    left == 0
}

pub fn payload_good(edit: Edit, payload: &[u32], first: &[u32]) -> bool
    ensures { result ≡ payload_ok edit payload.now first.now }
{
    match edit {
        Edit::InsertChar { .. } => all_admissible(payload) & (payload.len() == 1),
        Edit::InsertStr { .. } => all_admissible(payload),
        Edit::DeleteRange { .. } => true,
        Edit::JoinLines { .. } => true,
        Edit::SplitLines { .. } => true,
        Edit::Replace { .. } => all_admissible(payload),
        Edit::InsertBlock { .. } => all_admissible(payload)
            & no_lf(payload)
            & sums_to(first, payload.len()),
        Edit::DeleteBlockChunks { .. } => true,
    }
}
