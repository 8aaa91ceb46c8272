// A whole script on slices: the bytes of its lines, and a slice for all that it prints.
#![tactic(auto)]

mod emitting;
mod feeding;

ghost use Rattle.std.specs.Prelude.{[], ◌≡◌};
ghost use Rattle.utf8.specs.Calls.{outcome};
ghost use Rattle.feed.specs.Scripts.{output};
ghost use Rattle.script.specs.Courses.{Goes};
ghost use Rattle.script.specs.Calls.{paper_ran, ran_into};

use emitting::add_part;
use feed::{CLOSING_ROOM, HELD_ROOM, close};
use feeding::feed_all;
use step::{MARK_ROOM, TEXT_ROOM, opening};
use utf8::NoRoom;

// Runs the script, and keeps what it prints or only counts it.
fn run_over(input: &[u8], out: &mut [u8], keep: bool) -> Result<usize, NoRoom>
    ensures { Goes keep (output input.now) out.old result [] out.new }
{
    let mut text = [0u32; TEXT_ROOM];
    let mut marks = [None; MARK_ROOM];
    let mut line = [0u8; HELD_ROOM];
    let mut room = [0u8; CLOSING_ROOM];
    let fed = feed_all(
        opening(),
        input,
        &mut line,
        &mut text,
        &mut marks,
        &mut room,
        out,
        keep,
    )?;
    let size = close(fed.script, fed.pending, &text, &marks, &mut room);
    add_part(&room[0..size], out, fed.printed, keep)
}

// A refusal changes nothing that is lent, so the script is run twice: the first time to see whether all that it prints fits.
pub fn run_script(input: &[u8], out: &mut [u8]) -> Result<usize, NoRoom>
    ensures { outcome (paper_ran result) out.new ≡ ran_into input.now out.old }
{
    run_over(input, out, false)?;
    run_over(input, out, true)
}
