// A script, one line at a time.
#![tactic(auto)]

mod edits;

ghost use Rattle.std.specs.Prelude.{◌≡◌, ◌≤◌, length};
ghost use Rattle.loading.specs.States.{script_of, opening};
ghost use Rattle.step.specs.Calls.{Ready, left, step_leaves};

use crate::edits::step_edit;
use edit::{Refusal, View};
use frame::Head;
use loading::{Progress, Script, keep_mark, refuse, step_text};
use place::{Place, judge};
use select::Sel;
use text::{Col, Position, Row};

// How long the slices are that a script is run on: its text's, its marks', and the room for what a line prints.
pub const TEXT_ROOM: usize = 4_096;

pub const MARK_ROOM: usize = 64;

pub const LINE_ROOM: usize = 36_867;

// Before the first line.
pub fn opening() -> Script
    ensures { result ≡ script_of opening }
{
    Script {
        view: View {
            used: 0,
            cursor: Position {
                row: Row(0),
                col: Col(0),
            },
            changes: 0,
        },
        place: Place {
            sound: false,
            marks: 0,
            edited: false,
        },
    }
}

// One line, without its LF. What it prints, with its LF, goes to the front of `out`.
pub fn step(
    script: Script,
    line: &[u8],
    text: &mut [u32],
    marks: &mut [Option<Sel>],
    out: &mut [u8],
) -> Progress
    requires { Ready script text.old marks.old × (36_867 ≤ length out.old) }
    ensures out_after { left result text.new marks.new out.new ≡ step_leaves script line.now text.old marks.old out.old }
    ensures ready { Ready result.script text.new marks.new × (result.printed ≤ 36_867) }
{
    let view = script.view;
    let place = script.place;
    let used = view.used;
    let head = judge(place, &text[0..used], line);
    let next = Script {
        view,
        place: place.seen(head),
    };
    match head {
        Head::Malformed => refuse(next, Refusal::BadFrame, out),
        Head::Text => step_text(next, line, text, out),
        Head::Mark(sel) => keep_mark(next, sel, marks),
        Head::Edit(_) => step_edit(next, line, text, marks, out),
    }
}
