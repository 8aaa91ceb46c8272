// Frames written as lines: the frame's bytes first, then their digits.
#![tactic(auto)]

ghost use Rattle.std.specs.Prelude.{◌≡◌, ◌≤◌, length};
ghost use Rattle.utf8.specs.Calls.{outcome, stored};
ghost use Rattle.hexline.specs.Digits.{hexed};
ghost use Rattle.edit.specs.Edits.{whole};
ghost use Rattle.frame.specs.Format.{text, mark, edit as edit_frame};
ghost use Rattle.writer.specs.Calls.{written_into};
ghost use Rattle.edit.specs.Call.{paper};

use edit::{Edit, Refusal};
use encoding::encode;
use frame::BYTE_LIMIT;
use frame_bytes::{put_edit, put_position};
use frame_size::{byte_count, has_bytes, octets_of};
use hexline::hex;
use select::Sel;
use utf8::ByteOffset;

// The digits of a whole frame that a line holds, to the front of `out`, and how many they are.
fn write_bytes(bytes: &[u8], out: &mut [u8]) -> Result<usize, Refusal>
    requires { length bytes.now ≤ 18_432 }
    ensures { outcome (paper result) out.new ≡ stored (hexed bytes.now) out.old }
{
    Ok(hex(bytes, out)?)
}

pub fn write_text(chars: &[u32], out: &mut [u8]) -> Result<usize, Refusal>
    ensures { outcome (paper result) out.new ≡ written_into (text chars.now) out.old }
{
    let mut bytes = [0u8; BYTE_LIMIT];
    bytes[0] = 0x01;
    let octets = encode(chars, &mut bytes[1..])?;
    write_bytes(&bytes[0..octets + 1], out)
}

pub fn write_mark(sel: Sel, out: &mut [u8]) -> Result<usize, Refusal>
    ensures { outcome (paper result) out.new ≡ written_into (mark sel) out.old }
{
    let anchor = sel.anchor;
    let head = sel.head;
    let mut bytes = [0u8; 17];
    bytes[0] = 0x02;
    put_position(&mut bytes, ByteOffset(1), anchor);
    put_position(&mut bytes, ByteOffset(9), head);
    write_bytes(&bytes, out)
}

// The frame of an edit with its payload and its two lists. What its kind does not use is not read.
pub fn write_edit(
    edit: Edit,
    payload: &[u32],
    first: &[u32],
    second: &[u32],
    out: &mut [u8],
) -> Result<usize, Refusal>
    ensures { outcome (paper result) out.new ≡ written_into (edit_frame (whole edit payload.now first.now second.now)) out.old }
{
    if !has_bytes(edit, payload, first, second) {
        return Err(Refusal::BadFrame);
    }
    let octets = octets_of(edit, payload)?;
    let count = byte_count(edit, first.len(), octets);
    if BYTE_LIMIT < count {
        return Err(Refusal::NoRoom);
    }
    let mut bytes = [0u8; BYTE_LIMIT];
    put_edit(&mut bytes, edit, payload, first, second);
    write_bytes(&bytes[0..count], out)
}
