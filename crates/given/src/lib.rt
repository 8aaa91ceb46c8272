// Refusals 1 to 4: what is judged of an edit before anything is done.
#![tactic(auto)]

ghost use Rattle.std.specs.Prelude.{List, ◌≡◌, ℕ, ◌≤◌, length};
ghost use Rattle.text.specs.Text.{text_limit};
ghost use Rattle.edit.specs.Refusals.{small_ok, few_ok, payload_ok};
ghost use Rattle.edit.specs.Call.{paper, verdict_of, given_tests, lent};
ghost use Rattle.given.specs.Tests.{later_tests};

use bad_payload::payload_good;
use edit::{Edit, Refusal, View};
use text::is_text;
use too_big::numbers_small;
use too_many::lists_few;

pub fn first_refusal(small: bool, few: bool, good: bool) -> Result<(), Refusal>
    ensures { paper result ≡ verdict_of (later_tests small few good) }
{
    if !small {
        return Err(Refusal::TooBig);
    }
    if !few {
        return Err(Refusal::TooMany);
    }
    if !good {
        return Err(Refusal::BadPayload);
    }
    Ok(())
}

// The first of refusals 2 to 4 that an edit meets, on a text that is known to be admitted.
pub fn judge_admitted(
    text: &[u32],
    edit: Edit,
    payload: &[u32],
    first: &[u32],
    second: &[u32],
) -> Result<(), Refusal>
    requires { length text.now ≤ text_limit }
    ensures { paper result ≡ verdict_of (later_tests (small_ok edit first.now second.now) (few_ok text.now edit payload.now first.now second.now) (payload_ok edit payload.now first.now)) }
{
    let small = numbers_small(edit, first, second);
    let few = lists_few(text, edit, payload, first, second);
    let good = payload_good(edit, payload, first);
    first_refusal(small, few, good)
}

// The first of refusals 1 to 4 that an edit meets, with its payload and lists, on the view's text.
pub fn judge(
    buffer: &[u32],
    view: View,
    edit: Edit,
    payload: &[u32],
    first: &[u32],
    second: &[u32],
) -> Result<(), Refusal>
    ensures { (op of os : List ℕ) → paper result ≡ verdict_of (given_tests view edit (lent buffer.now payload.now first.now second.now op of os)) }
{
    let used = view.used;
    if !is_text(buffer, used) {
        return Err(Refusal::BadText);
    }
    judge_admitted(&buffer[0..used], edit, payload, first, second)
}
