// An edit on a view that is lent: the record is updated where it stands.
#![tactic(auto)]

ghost use Rattle.std.specs.Prelude.{◌≡◌};
ghost use Rattle.edit.specs.Call.{paper, lent};
ghost use Rattle.thin.specs.Stands.{view_after, PromisedIn};

use apply::apply_edit;
use edit::{Applied, Edit, Refusal, View};

// The view after an answer: the new one, or the old where the edit was refused.
fn view_after(view: View, answer: Result<Applied, Refusal>) -> View
    ensures { result ≡ view_after view (paper answer) }
{
    match answer {
        Ok(done) => done.view,
        Err(_) => view,
    }
}

pub fn apply_edit_in(
    text: &mut [u32],
    view: &mut View,
    edit: Edit,
    payload: &[u32],
    first: &[u32],
    second: &[u32],
    outpayload: &mut [u32],
    outfirst: &mut [u32],
    outsecond: &mut [u32],
) -> Result<Applied, Refusal>
    ensures { PromisedIn result text.new outpayload.new outfirst.new outsecond.new view.new view.old edit (lent text.old payload.now first.now second.now outpayload.old outfirst.old outsecond.old) }
{
    let before = *view;
    let answer = apply_edit(
        text, before, edit, payload, first, second, outpayload, outfirst, outsecond,
    );
    *view = view_after(before, answer);
    answer
}
