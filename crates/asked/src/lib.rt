// A line read as the frame that is asked for: a text, a mark or an edit. A line that is another frame is refused by 10, and writes nothing.
#![tactic(auto)]

ghost use Rattle.std.specs.Prelude.{◌≡◌};
ghost use Rattle.promise.specs.Paper.{done};
ghost use Rattle.utf8.specs.Calls.{outcome};
ghost use Rattle.frame.specs.Forms.{head_of, line_form};
ghost use Rattle.reader.specs.Calls.{read_of, filled};
ghost use Rattle.asked.specs.Calls.{paper_mark, paper_edit, chars_only, edit_only, text_into, mark_in, edit_into};
ghost use Rattle.edit.specs.Call.{paper};

use edit::{Edit, Refusal};
use frame::Head;
use hexline::BadFrame;
use place::line_head;
use reader::{FrameRead, read};
use select::Sel;

// An edit, with how much of the payload's and the lists' slices it takes.
#[derive(Clone, Copy)]
pub struct EditRead {
    pub edit: Edit,
    pub payload: usize,
    pub first: usize,
    pub second: usize,
}

// What was read, if it is a text.
fn text_only(frame: FrameRead) -> Result<usize, Refusal>
    ensures { paper result ≡ chars_only (done (read_of frame)) }
{
    match frame {
        FrameRead::Text(count) => Ok(count),
        FrameRead::Mark(_) => Err(Refusal::BadFrame),
        FrameRead::Edit { .. } => Err(Refusal::BadFrame),
    }
}

// What was read, if it is an edit.
fn edit_only(frame: FrameRead) -> Result<EditRead, Refusal>
    ensures { paper_edit result ≡ edit_only (done (read_of frame)) }
{
    match frame {
        FrameRead::Text(_) => Err(Refusal::BadFrame),
        FrameRead::Mark(_) => Err(Refusal::BadFrame),
        FrameRead::Edit {
            edit,
            payload,
            first,
            second,
        } => Ok(EditRead {
            edit,
            payload,
            first,
            second,
        }),
    }
}

// How many characters the text has, which go to the front of `out`.
pub fn read_text_line(line: &[u8], out: &mut [u32]) -> Result<usize, Refusal>
    ensures { outcome (paper result) out.new ≡ text_into (line_form line.now) out.old }
{
    let head = line_head(line);
    match head {
        Head::Malformed => Err(Refusal::BadFrame),
        Head::Text => {
            // A text has no lists.
            text_only(read(line, out, &mut [], &mut [])?)
        }
        Head::Mark(_) => Err(Refusal::BadFrame),
        Head::Edit(_) => Err(Refusal::BadFrame),
    }
}

pub fn read_mark_line(line: &[u8]) -> Result<Sel, BadFrame>
    ensures { paper_mark result ≡ mark_in (head_of (line_form line.now)) }
{
    let head = line_head(line);
    match head {
        Head::Malformed => Err(BadFrame),
        Head::Text => Err(BadFrame),
        Head::Mark(mark) => Ok(mark),
        Head::Edit(_) => Err(BadFrame),
    }
}

// The edit's payload and lists go to the front of the slices.
pub fn read_edit_line(
    line: &[u8],
    payload: &mut [u32],
    first: &mut [u32],
    second: &mut [u32],
) -> Result<EditRead, Refusal>
    ensures { filled (paper_edit result) payload.new first.new second.new ≡ edit_into (line_form line.now) payload.old first.old second.old }
{
    let head = line_head(line);
    match head {
        Head::Malformed => Err(Refusal::BadFrame),
        Head::Text => Err(Refusal::BadFrame),
        Head::Mark(_) => Err(Refusal::BadFrame),
        Head::Edit(_) => edit_only(read(line, payload, first, second)?),
    }
}
