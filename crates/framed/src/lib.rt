// An edit that a script's line is, applied to a text.
#![tactic(auto)]

ghost use Rattle.std.specs.Prelude.{◌≡◌};
ghost use Rattle.edit.specs.declared.Edit.{Edit as AnEdit};
ghost use Rattle.edit.specs.Call.{paper, outcome};
ghost use Rattle.frame.specs.declared.Head.TheVariants as as_head;
ghost use Rattle.frame.specs.Forms.{head_of, line_form};
ghost use Rattle.frame.specs.Reads.{frame_read};
ghost use Rattle.framed.specs.Calls.{frame_applied, line_applied};

use apply::apply_edit;
use edit::{Applied, Refusal, View};
use frame::{BYTE_LIMIT, Head};
use place::{Place, judge};
use reader::{FrameRead, read};

// The payload and the lists are as long as a line can make them.
fn apply_edit_line(
    text: &mut [u32],
    view: View,
    line: &[u8],
    outpayload: &mut [u32],
    outfirst: &mut [u32],
    outsecond: &mut [u32],
) -> Result<Applied, Refusal>
    requires { (e : AnEdit) × (head_of (line_form line.now) ≡ as_head.Edit e) }
    ensures { outcome (paper result) text.new outpayload.new outfirst.new outsecond.new ≡ frame_applied (frame_read line.now) view text.old outpayload.old outfirst.old outsecond.old }
{
    let mut payload = [0u32; BYTE_LIMIT];
    let mut first = [0u32; 4_608];
    let mut second = [0u32; 3_687];
    let frame = read(line, &mut payload, &mut first, &mut second)?;
    match frame {
        FrameRead::Edit {
            edit,
            payload: x,
            first: f,
            second: s,
        } => apply_edit(
            text,
            view,
            edit,
            &payload[0..x],
            &first[0..f],
            &second[0..s],
            outpayload,
            outfirst,
            outsecond,
        ),
        FrameRead::Text(_) => Err(Refusal::BadFrame),
        FrameRead::Mark(_) => Err(Refusal::BadFrame),
    }
}

// The line is one without its LF. The slices are those of `apply_edit`.
pub fn apply_frame(
    text: &mut [u32],
    view: View,
    line: &[u8],
    outpayload: &mut [u32],
    outfirst: &mut [u32],
    outsecond: &mut [u32],
) -> Result<Applied, Refusal>
    ensures { outcome (paper result) text.new outpayload.new outfirst.new outsecond.new ≡ line_applied view line.now text.old outpayload.old outfirst.old outsecond.old }
{
    let among_edits = Place {
        sound: true,
        marks: 0,
        edited: true,
    };
    let head = judge(among_edits, &[], line);
    match head {
        Head::Edit(_) => apply_edit_line(text, view, line, outpayload, outfirst, outsecond),
        Head::Malformed => Err(Refusal::BadFrame),
        Head::Text => Err(Refusal::BadFrame),
        Head::Mark(_) => Err(Refusal::BadFrame),
    }
}
