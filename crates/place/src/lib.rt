// Whether a line is sound and stands in its place. No edit is run.
#![tactic(auto)]

ghost use Rattle.std.specs.Prelude.{◌≡◌, ◌*◌, ◌≤◌, length};
ghost use Rattle.text.specs.Text.{text_limit};
ghost use Rattle.hexline.specs.Digits.{digit_limit};
ghost use Rattle.frame.specs.Forms.{Form, head_of, line_form};
ghost use Rattle.place.specs.Places.{mark_limit, mark_ok, judged, seen};

use forms::head_of;
use frame::{BYTE_LIMIT, Head, SHORT_BYTES, SHORT_LINE};
use hexline::unhex;
use rows::contains;
use select::Sel;

// The most marks that are kept.
pub const MARK_LIMIT: usize = 64;

// What has been seen of a script.
#[derive(Clone, Copy)]
pub struct Place {
    // a line that is not malformed
    pub sound: bool,
    // how many marks are kept
    pub marks: usize,
    pub edited: bool,
}

impl Place {
    // With a line of this kind, in its place.
    pub fn seen(self, head: Head) -> Place
        requires { self.marks ≤ mark_limit }
        ensures { (g : Form) → head_of g ≡ head → result ≡ seen self g }
    {
        match head {
            Head::Malformed => self,
            Head::Text => Place {
                sound: true,
                ..self
            },
            Head::Mark(_) => Place {
                sound: true,
                marks: self.marks + 1,
                ..self
            },
            Head::Edit(_) => Place {
                sound: true,
                edited: true,
                ..self
            },
        }
    }
}

// The kind of a line. `bytes` has room for the line's, and is for its own use.
fn head_in(line: &[u8], bytes: &mut [u8]) -> Head
    requires { length line.now ≤ digit_limit → length line.now ≤ 2 * length bytes.old }
    ensures { result ≡ head_of (line_form line.now) }
{
    let unhexed = unhex(line, bytes);
    match unhexed {
        Ok(count) => head_of(&bytes[0..count]),
        Err(_) => Head::Malformed,
    }
}

// The kind of a line.
pub fn line_head(line: &[u8]) -> Head
    ensures { result ≡ head_of (line_form line.now) }
{
    if line.len() <= SHORT_LINE {
        let mut bytes = [0u8; SHORT_BYTES];
        return head_in(line, &mut bytes);
    }
    let mut bytes = [0u8; BYTE_LIMIT];
    head_in(line, &mut bytes)
}

// Whether a mark breaks none of its conditions.
fn is_placed(place: Place, text: &[u32], sel: Sel) -> bool
    requires { length text.now ≤ text_limit }
    ensures { result ≡ mark_ok place text.now sel }
{
    let anchor = sel.anchor;
    let head = sel.head;
    !place.edited & (place.marks < MARK_LIMIT) & contains(text, anchor) & contains(text, head)
}

// The kind of a line that is sound and in its place.
pub fn judge(place: Place, text: &[u32], line: &[u8]) -> Head
    requires { length text.now ≤ text_limit }
    ensures { result ≡ head_of (judged place text.now line.now) }
{
    let head = line_head(line);
    match head {
        Head::Malformed => Head::Malformed,
        Head::Text => {
            if place.sound {
                Head::Malformed
            } else {
                Head::Text
            }
        }
        Head::Mark(sel) => {
            if is_placed(place, text, sel) {
                Head::Mark(sel)
            } else {
                Head::Malformed
            }
        }
        Head::Edit(edit) => Head::Edit(edit),
    }
}
