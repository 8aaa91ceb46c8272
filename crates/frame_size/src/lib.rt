// Which edits have a frame, and how many bytes it takes.
#![tactic(auto)]

ghost use Rattle.std.specs.Prelude.{◌≡◌, min, leb};
ghost use Rattle.text.specs.Text.{all};
ghost use Rattle.utf8.specs.Answers.{paper_octet_count};
ghost use Rattle.utf8.specs.Calls.{octet_count};
ghost use Rattle.frame.specs.Format.{has_bytes, edit_chars};
ghost use Rattle.frame.specs.Sizes.{size_of};

use bad_payload::sums_to;
use edit::Edit;
use encoding::count_octets;
use frame::BYTE_LIMIT;
use utf8::BadText;

// Whether every flag is 0 or 1. Looks at every one: without an early exit the loop is vectorised. One with `all_admissible` by a closure would
// be no plainer.
fn all_flags(flags: &[u32]) -> bool
    ensures { result ≡ all (λ b. leb b 1) flags.now }
{
    let mut all = true;
    for x in flags {
        all &= *x <= 1;
    }
    all
}

// Whether an edit has a frame.
pub fn has_bytes(edit: Edit, payload: &[u32], first: &[u32], second: &[u32]) -> bool
    ensures { result ≡ has_bytes edit payload.now first.now second.now }
{
    match edit {
        Edit::InsertChar { .. } => false,
        Edit::InsertStr { .. } => true,
        Edit::DeleteRange { .. } => true,
        Edit::JoinLines { .. } => true,
        Edit::SplitLines { .. } => (first.len() == second.len()) & all_flags(second),
        Edit::Replace { .. } => true,
        Edit::InsertBlock { .. } => sums_to(first, payload.len()),
        Edit::DeleteBlockChunks { .. } => first.len() == second.len(),
    }
}

// How many octets the characters take that an edit's frame has.
pub fn octets_of(edit: Edit, payload: &[u32]) -> Result<usize, BadText>
    ensures { paper_octet_count result ≡ octet_count (edit_chars edit payload.now) }
{
    match edit {
        Edit::InsertChar { .. } => Ok(0),
        Edit::InsertStr { .. } => count_octets(payload),
        Edit::DeleteRange { .. } => Ok(0),
        Edit::JoinLines { .. } => Ok(0),
        Edit::SplitLines { .. } => Ok(0),
        Edit::Replace { .. } => count_octets(payload),
        Edit::InsertBlock { .. } => count_octets(payload),
        Edit::DeleteBlockChunks { .. } => Ok(0),
    }
}

// A count, or one more than a line holds where it is more.
fn bounded(count: usize) -> usize
    ensures { result ≡ min count 18_433 }
{
    count.min(BYTE_LIMIT + 1)
}

// How many bytes the frame takes whose first list has so many items and whose characters take so many octets, or one more
// than a line holds where it takes more.
pub fn byte_count(edit: Edit, items: usize, octets: usize) -> usize
    ensures { result ≡ min (size_of edit items octets) 18_433 }
{
    let few = bounded(items);
    let short = bounded(octets);
    match edit {
        Edit::InsertChar { .. } => 0,
        Edit::InsertStr { .. } => bounded(9 + short),
        Edit::DeleteRange { .. } => 18,
        Edit::JoinLines { .. } => 10,
        Edit::SplitLines { .. } => bounded(5 + 5 * few),
        Edit::Replace { .. } => bounded(17 + short),
        Edit::InsertBlock { .. } => bounded(9 + (4 * few + short)),
        Edit::DeleteBlockChunks { .. } => bounded(9 + 8 * few),
    }
}
