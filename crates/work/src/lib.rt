// One worker for every kind: an edit that rows 1 to 4 do not refuse is resolved into steps, summed, judged, recorded and stored.
#![tactic(auto)]

ghost use mathlib.Core.Path.{◌≡◌};
ghost use mathlib.Core.Bool.{true, cond};
ghost use Prim.Native.Nat.{◌+◌, ◌*◌, ◌≤◌};
ghost use lib.ListN.{length, take};
ghost use Rattle.text.specs.Rows.{clamp as clamp_in};
ghost use Rattle.text.specs.Text.{is_lf, text_limit, renewed};
ghost use Rattle.std.specs.Prelude.{Ok};
ghost use Rattle.edit.specs.declared.Edit.TheVariants.{Replace};
ghost use Rattle.edit.specs.Edits.{inserted};
ghost use Rattle.edit.specs.Refusals.{within_ok};
ghost use Rattle.edit.specs.Call.{paper, Lent, text_of, result_of, outcome, finished};
ghost use Rattle.steps.specs.Numbers.{cut_by, size_by};
ghost use Rattle.steps.specs.Resolves.{Resolves};
ghost use Rattle.resolve.specs.Admits.{Admitted, cut_first, most_steps};
ghost use Rattle.work.specs.Answers.{done_as};

use edit::{Applied, Edit, Plan, Refusal, Room, View};
use plan::{end_after, judge, next_view};
use recording::{record_cut, record_lists, sum_steps};
use resolve::{most_steps, resolve};
use rows::{clamp, locate};
use single::resolve_chars;
use splice::SPACE;
use steps::{Resolved, put_step};
use text::Position;
use weave::commit;

// The edit resolved, and how long the text and the inverse will be.
#[derive(Clone, Copy)]
struct Planned {
    found: Resolved,
    plan: Plan,
}

fn plan_edit(
    text: &[u32],
    edit: Edit,
    payload: &[u32],
    first: &[u32],
    second: &[u32],
    steps: &mut [u32],
) -> Planned
    requires { (length text.now ≤ text_limit) × Admitted edit payload.now first.now second.now text.now × (5 * most_steps edit (length first.now) ≤ length steps.old) }
    ensures resolved { Resolves result.found steps.new (cut_first edit) payload.now first.now second.now text.now }
    ensures plan { result.plan ≡ record { used = size_by result.found.steps steps.new 0 (length text.now); payload = cut_by result.found.steps steps.new; first = result.found.first; second = result.found.second } }
{
    let found = resolve(text, edit, payload, first, second, steps);
    let sums = sum_steps(text, steps, found.steps, found.made, payload);
    let plan = Plan {
        used: sums.used,
        payload: sums.cut,
        first: found.first,
        second: found.second,
    };
    Planned { found, plan }
}

fn cursor_in(text: &[u32], cursor: Position, settled: bool) -> Position
    requires { length text.now ≤ text_limit }
    ensures { result ≡ cond settled cursor (clamp_in is_lf text.now cursor) }
{
    if settled {
        return cursor;
    }
    clamp(text, cursor)
}

// The answer of an accepted edit.
fn done(view: View, plan: Plan, cursor: Position, inverse: Edit) -> Result<Applied, Refusal>
    ensures { result ≡ Ok (done_as view plan cursor inverse) }
{
    Ok(Applied {
        view: next_view(view, plan.used, cursor),
        inverse,
        payload: plan.payload,
        first: plan.first,
        second: plan.second,
    })
}

// The edit done, with `steps` for its own use.
fn work_by(
    text: &mut [u32],
    view: View,
    room: Room,
    edit: Edit,
    payload: &[u32],
    first: &[u32],
    second: &[u32],
    outpayload: &mut [u32],
    outfirst: &mut [u32],
    outsecond: &mut [u32],
    steps: &mut [u32],
) -> Result<Applied, Refusal>
    requires { (view.used ≤ length text.old) × (view.used ≤ text_limit) × Admitted edit payload.now first.now second.now (take view.used text.old) × (5 * most_steps edit (length first.now) ≤ length steps.old) × (room ≡ record { buffer = length text.old; payload = length outpayload.old; first = length outfirst.old; second = length outsecond.old }) × (cut_first edit ≡ edit) }
    ensures { (l : Lent) → l.buffer ≡ text.old → l.payload ≡ payload.now → l.first ≡ first.now → l.second ≡ second.now → l.out_payload ≡ outpayload.old → l.out_first ≡ outfirst.old → l.out_second ≡ outsecond.old → outcome (paper result) text.new outpayload.new outfirst.new outsecond.new ≡ finished (within_ok (text_of view l) edit l.first l.second) view l (result_of view edit l) }
{
    let used = view.used;
    let planned = plan_edit(&text[0..used], edit, payload, first, second, steps);
    let found = planned.found;
    let plan = planned.plan;
    judge(found.within, room, plan)?;
    let n = found.steps;
    let size = plan.used;
    record_cut(&text[0..used], steps, n, outpayload);
    record_lists(edit, steps, n, found.start.0, first, outfirst, outsecond);
    commit(text, used, steps, n, found.made, payload, size);
    let cursor = cursor_in(&text[0..size], found.cursor, found.settled);
    let inverse = found.inverse;
    done(view, plan, cursor, inverse)
}

// An edit of rows: up to 32 steps have a shorter array, since all of it is cleared.
fn work_rows(
    text: &mut [u32],
    view: View,
    room: Room,
    edit: Edit,
    most: usize,
    payload: &[u32],
    first: &[u32],
    second: &[u32],
    outpayload: &mut [u32],
    outfirst: &mut [u32],
    outsecond: &mut [u32],
) -> Result<Applied, Refusal>
    requires { (view.used ≤ length text.old) × (view.used ≤ text_limit) × Admitted edit payload.now first.now second.now (take view.used text.old) × (most ≡ most_steps edit (length first.now)) × (room ≡ record { buffer = length text.old; payload = length outpayload.old; first = length outfirst.old; second = length outsecond.old }) × (cut_first edit ≡ edit) }
    ensures { (l : Lent) → l.buffer ≡ text.old → l.payload ≡ payload.now → l.first ≡ first.now → l.second ≡ second.now → l.out_payload ≡ outpayload.old → l.out_first ≡ outfirst.old → l.out_second ≡ outsecond.old → outcome (paper result) text.new outpayload.new outfirst.new outsecond.new ≡ finished (within_ok (text_of view l) edit l.first l.second) view l (result_of view edit l) }
{
    if most <= 32 {
        let mut steps = [0; 160];
        return work_by(
            text, view, room, edit, payload, first, second, outpayload, outfirst, outsecond,
            &mut steps,
        );
    }
    let mut steps = [0; 1280];
    work_by(
        text, view, room, edit, payload, first, second, outpayload, outfirst, outsecond, &mut steps,
    )
}

// Every edit but a Replace.
pub fn work(
    text: &mut [u32],
    view: View,
    room: Room,
    edit: Edit,
    payload: &[u32],
    first: &[u32],
    second: &[u32],
    outpayload: &mut [u32],
    outfirst: &mut [u32],
    outsecond: &mut [u32],
) -> Result<Applied, Refusal>
    requires { (view.used ≤ length text.old) × (view.used ≤ text_limit) × Admitted edit payload.now first.now second.now (take view.used text.old) × (room ≡ record { buffer = length text.old; payload = length outpayload.old; first = length outfirst.old; second = length outsecond.old }) × (cut_first edit ≡ edit) }
    ensures { (l : Lent) → l.buffer ≡ text.old → l.payload ≡ payload.now → l.first ≡ first.now → l.second ≡ second.now → l.out_payload ≡ outpayload.old → l.out_first ≡ outfirst.old → l.out_second ≡ outsecond.old → outcome (paper result) text.new outpayload.new outfirst.new outsecond.new ≡ finished (within_ok (text_of view l) edit l.first l.second) view l (result_of view edit l) }
{
    let most = most_steps(edit, first.len());
    if most <= 1 {
        let mut steps = [0; 5];
        return work_by(
            text, view, room, edit, payload, first, second, outpayload, outfirst, outsecond,
            &mut steps,
        );
    }
    work_rows(
        text, view, room, edit, most, payload, first, second, outpayload, outfirst, outsecond,
    )
}

// Where a payload that was put in starts and ends.
#[derive(Clone, Copy)]
struct Inserted {
    start: Position,
    end: Position,
}

// Puts the payload in where `at` lies in the text.
fn insert_at(text: &mut [u32], used: usize, at: Position, payload: &[u32]) -> Inserted
    requires { (used ≤ text_limit) × (length payload.now ≤ text_limit) × (used + length payload.now ≤ length text.old) }
    ensures text { text.new ≡ renewed text.old used (inserted is_lf (take used text.old) at payload.now).text }
    ensures value { result ≡ record { start = clamp_in is_lf (take used text.old) at; end = (inserted is_lf (take used text.old) at payload.now).cursor } }
{
    let place = locate(&text[0..used], at);
    let start = place.pos;
    let end = end_after(start, payload);
    let mut steps = [0; 5];
    put_step(&mut steps, place.at.0 as u32, 0, 0, payload.len() as u32, 0);
    let size = used + payload.len();
    commit(text, used, &steps, 1, SPACE, payload, size);
    Inserted { start, end }
}

// A Replace. The cut and the insertion are two moves, each found in the text as it then stands: where the start lies past its row's end
// they do not touch.
pub fn replace(
    text: &mut [u32],
    view: View,
    room: Room,
    start: Position,
    end: Position,
    payload: &[u32],
    outpayload: &mut [u32],
) -> Result<Applied, Refusal>
    requires { (view.used ≤ length text.old) × (view.used ≤ text_limit) × (length payload.now ≤ text_limit) × (room.buffer ≡ length text.old) × (room.payload ≡ length outpayload.old) }
    ensures { (l : Lent) → l.buffer ≡ text.old → l.payload ≡ payload.now → l.out_payload ≡ outpayload.old → outcome (paper result) text.new outpayload.new l.out_first l.out_second ≡ finished true view l (result_of view (Replace start end) l) }
{
    let used = view.used;
    let mut steps = [0; 5];
    let cut = resolve_chars(&text[0..used], start, end, &mut steps);
    let n = cut.steps;
    let sums = sum_steps(&text[0..used], &steps, n, cut.made, payload);
    let left = sums.used;
    let plan = Plan {
        used: left + payload.len(),
        payload: sums.cut,
        first: 0,
        second: 0,
    };
    judge(true, room, plan)?;
    record_cut(&text[0..used], &steps, n, outpayload);
    commit(text, used, &steps, n, cut.made, payload, left);
    let put = insert_at(text, left, start.min(end), payload);
    let begin = put.start;
    let to = put.end;
    let inverse = Edit::Replace {
        start: begin,
        end: to,
    };
    done(view, plan, to, inverse)
}
