// A script's bytes, fed, and what they print.
ghost use Rattle.std.specs.Prelude.{[], ◌≤◌, length, IfOk};
ghost use Rattle.loading.specs.States.{state_of};
ghost use Rattle.step.specs.Calls.{Ready};
ghost use Rattle.feed.specs.Feeds.{fed_by, closing, whole};
ghost use Rattle.script.specs.Courses.{GoesFed};

use crate::emitting::add_part;
use feed::feed;
use loading::Script;
use select::Sel;
use utf8::NoRoom;

// The script after some bytes, how many of a line are held, and how much they printed.
#[derive(Clone, Copy)]
pub struct FedOver {
    pub script: Script,
    pub pending: usize,
    pub printed: usize,
}

// All of the input, up to what does not fit. `room` is for what a call of the feeder prints.
pub fn feed_all(
    script: Script,
    input: &[u8],
    line: &mut [u8],
    text: &mut [u32],
    marks: &mut [Option<Sel>],
    room: &mut [u8],
    out: &mut [u8],
    keep: bool,
) -> Result<FedOver, NoRoom>
    requires { Ready script text.old marks.old × (36_865 ≤ length line.old) × (36_867 ≤ length room.old) }
    ensures ready { IfOk result (λ f. Ready f.script text.new marks.new × (f.printed ≤ length out.old)) }
    ensures goes { GoesFed keep (whole (fed_by (state_of script text.old marks.old) [] input.now)) out.old result (λ f. closing (state_of f.script text.new marks.new) f.pending) out.new }
{
    let mut current = script;
    let mut pending = 0;
    let mut printed = 0;
    let mut at = 0;
    // A cursor: each turn moves it by what the feeder took.
    while at < input.len() {
        let course = feed(current, pending, line, &input[at..], text, marks, room);
        let size = course.printed;
        printed = add_part(&room[0..size], out, printed, keep)?;
        current = course.script;
        pending = course.pending;
        at += course.taken;
    }
    Ok(FedOver {
        script: current,
        pending,
        printed,
    })
}
