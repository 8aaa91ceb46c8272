// Edit frames.
ghost use Rattle.std.specs.Prelude.{true, ◌∷◌, ◌≡◌, ◌*◌, ◌≤◌, length};
ghost use Rattle.promise.specs.Paper.{done};
ghost use Rattle.promise.specs.Slices.{over};
ghost use Rattle.edit.specs.declared.Edit.{Edit as AnEdit};
ghost use Rattle.edit.specs.Edits.{whole};
ghost use Rattle.edit.specs.Call.{verdict_of, given_tests};
ghost use Rattle.shift.specs.Call.{ordered_ok};
ghost use Rattle.frame.specs.declared.Head.TheVariants as as_head;
ghost use Rattle.frame.specs.Format.{edit as edit_frame, frame_bytes};
ghost use Rattle.frame.specs.Forms.{head_of, line_form};
ghost use Rattle.frame.specs.Reads.{frame_read};
ghost use Rattle.frame.specs.Inverses.{HasLine};
ghost use Rattle.printing.specs.Prints.{printed_as};
ghost use Rattle.loading.specs.States.{state_of};
ghost use Rattle.step.specs.Steps.{lent_to, ran, edited, framed};
ghost use Rattle.step.specs.Calls.{Ready, left, leaves, carried_in, inverse_in};

use crate::MARK_ROOM;
use apply::apply_judged;
use edit::{Applied, Edit, Refusal};
use frame::{BYTE_LIMIT, SHORT_BYTES, SHORT_LINE};
use given::judge_admitted;
use loading::{Progress, Script, refuse};
use marking::{carry_copy, copy_marks, in_order};
use place::Place;
use printing::print_inverse;
use reader::{FrameRead, read};
use select::Sel;

// What an accepted edit leaves beside its text: the marks over it, and the line of its inverse.
fn accept(
    place: Place,
    done: Applied,
    payload: &[u32],
    first: &[u32],
    second: &[u32],
    moved: &[Option<Sel>],
    marks: &mut [Option<Sel>],
    out: &mut [u8],
) -> Progress
    requires { (length moved.now ≡ length marks.old) × (36_867 ≤ length out.old) × (done.payload ≤ length payload.now) × (done.first ≤ length first.now) × (done.second ≤ length second.now) × HasLine (edit_frame (inverse_in done payload.now first.now second.now)) }
    ensures { (result.script ≡ record { view = done.view; place = place }) × (marks.new ≡ moved.now) × (out.new ≡ over (printed_as (0 ∷ frame_bytes (edit_frame (inverse_in done payload.now first.now second.now)))) out.old) × (result.printed ≡ length (printed_as (0 ∷ frame_bytes (edit_frame (inverse_in done payload.now first.now second.now))))) }
{
    copy_marks(moved, marks);
    let x = done.payload;
    let f = done.first;
    let s = done.second;
    let inverse = done.inverse;
    let view = done.view;
    let printed = print_inverse(inverse, &payload[0..x], &first[0..f], &second[0..s], out);
    Progress {
        script: Script { view, place },
        printed,
    }
}

// Applies an edit that rows 1 to 4 do not refuse. `moved` has the marks over it.
fn apply_moved(
    script: Script,
    edit: Edit,
    payload: &[u32],
    first: &[u32],
    second: &[u32],
    moved: &[Option<Sel>],
    text: &mut [u32],
    marks: &mut [Option<Sel>],
    out: &mut [u8],
) -> Progress
    requires { Ready script text.old marks.old × (36_867 ≤ length out.old) × (verdict_of (given_tests script.view edit (lent_to (state_of script text.old marks.old) (whole edit payload.now first.now second.now))) ≡ done tt) × (moved.now ≡ carried_in (state_of script text.old marks.old) (whole edit payload.now first.now second.now) marks.old) }
    ensures { left result text.new marks.new out.new ≡ leaves (ran (state_of script text.old marks.old) (whole edit payload.now first.now second.now)) marks.old out.old }
{
    let view = script.view;
    let place = script.place;
    let room = text.len();
    let mut outpayload = [0u32; 4_096];
    let mut outfirst = [0u32; 256];
    let mut outsecond = [0u32; 256];
    let answer = apply_judged(
        text,
        view,
        edit,
        payload,
        first,
        second,
        &mut outpayload[0..room],
        &mut outfirst,
        &mut outsecond,
    );
    match answer {
        Err(why) => refuse(script, why, out),
        Ok(done) => accept(
            place,
            done,
            &outpayload,
            &outfirst,
            &outsecond,
            moved,
            marks,
            out,
        ),
    }
}

// Carries the marks over an edit that rows 1 to 4 do not refuse, and applies it.
fn apply_frame(
    script: Script,
    edit: Edit,
    payload: &[u32],
    first: &[u32],
    second: &[u32],
    text: &mut [u32],
    marks: &mut [Option<Sel>],
    out: &mut [u8],
) -> Progress
    requires { Ready script text.old marks.old × (36_867 ≤ length out.old) × (ordered_ok edit ≡ true) × (verdict_of (given_tests script.view edit (lent_to (state_of script text.old marks.old) (whole edit payload.now first.now second.now))) ≡ done tt) }
    ensures { left result text.new marks.new out.new ≡ leaves (ran (state_of script text.old marks.old) (whole edit payload.now first.now second.now)) marks.old out.old }
{
    let view = script.view;
    let place = script.place;
    let used = view.used;
    let count = place.marks;
    let mut moved = [None; MARK_ROOM];
    carry_copy(
        &text[0..used],
        edit,
        payload,
        first,
        marks,
        &mut moved,
        count,
    );
    apply_moved(
        script, edit, payload, first, second, &moved, text, marks, out,
    )
}

// An edit with its ends in order, judged.
fn run_frame(
    script: Script,
    edit: Edit,
    payload: &[u32],
    first: &[u32],
    second: &[u32],
    text: &mut [u32],
    marks: &mut [Option<Sel>],
    out: &mut [u8],
) -> Progress
    requires { Ready script text.old marks.old × (36_867 ≤ length out.old) }
    ensures { left result text.new marks.new out.new ≡ leaves (edited (state_of script text.old marks.old) (whole edit payload.now first.now second.now)) marks.old out.old }
{
    let view = script.view;
    let used = view.used;
    let ordered = in_order(edit);
    let verdict = judge_admitted(&text[0..used], ordered, payload, first, second);
    match verdict {
        Err(why) => refuse(script, why, out),
        Ok(()) => apply_frame(script, ordered, payload, first, second, text, marks, out),
    }
}

// A line that is an edit frame in its place, read into slices that have room for it. They are for its own use.
fn step_read(
    script: Script,
    line: &[u8],
    payload: &mut [u32],
    first: &mut [u32],
    second: &mut [u32],
    text: &mut [u32],
    marks: &mut [Option<Sel>],
    out: &mut [u8],
) -> Progress
    requires { Ready script text.old marks.old × (36_867 ≤ length out.old) × ((e : AnEdit) × (head_of (line_form line.now) ≡ as_head.Edit e)) × ((length line.now ≤ 2 * length payload.old) × (length line.now ≤ 8 * length first.old) × (length line.now ≤ 10 * length second.old)) }
    ensures { left result text.new marks.new out.new ≡ leaves (framed (state_of script text.old marks.old) (frame_read line.now)) marks.old out.old }
{
    match read(line, payload, first, second) {
        Ok(
            FrameRead::Edit {
                edit,
                payload: x,
                first: f,
                second: s,
            },
        ) => run_frame(
            script,
            edit,
            &payload[0..x],
            &first[0..f],
            &second[0..s],
            text,
            marks,
            out,
        ),
        Err(why) => refuse(script, why, out),
        Ok(FrameRead::Text(_)) => refuse(script, Refusal::BadFrame, out),
        Ok(FrameRead::Mark(_)) => refuse(script, Refusal::BadFrame, out),
    }
}

// A line that is an edit frame in its place.
pub fn step_edit(
    script: Script,
    line: &[u8],
    text: &mut [u32],
    marks: &mut [Option<Sel>],
    out: &mut [u8],
) -> Progress
    requires { Ready script text.old marks.old × (36_867 ≤ length out.old) × ((e : AnEdit) × (head_of (line_form line.now) ≡ as_head.Edit e)) }
    ensures { left result text.new marks.new out.new ≡ leaves (framed (state_of script text.old marks.old) (frame_read line.now)) marks.old out.old }
{
    // An item of a first list takes eight digits or more, one of a second list ten.
    if line.len() <= SHORT_LINE {
        let mut payload = [0u32; SHORT_BYTES];
        let mut first = [0u32; 64];
        let mut second = [0u32; 52];
        return step_read(
            script,
            line,
            &mut payload,
            &mut first,
            &mut second,
            text,
            marks,
            out,
        );
    }
    let mut payload = [0u32; BYTE_LIMIT];
    let mut first = [0u32; 4_608];
    let mut second = [0u32; 3_687];
    step_read(
        script,
        line,
        &mut payload,
        &mut first,
        &mut second,
        text,
        marks,
        out,
    )
}
