// The lists of a frame: items of as many bytes each, and their numbers.
ghost use Rattle.std.specs.Prelude.{◌≡◌, List, [], ℕ, ◌+◌, ◌/◌, ◌≤◌, length};
ghost use Rattle.promise.specs.Paper.{done};
ghost use Rattle.promise.specs.Slices.{over};
ghost use Rattle.edit.specs.Edits.{whole};
ghost use Rattle.frame.specs.Numbers.{number_in, items};
ghost use Rattle.frame.specs.Forms.{columns_in, flags_in, widths_in, pads_in};
ghost use Rattle.frame.specs.Format as format;
ghost use Rattle.reader.specs.Calls.{paper_read, filled, read_into};

use crate::FrameRead;
use edit::{Edit, Refusal};
use frame::number_at;
use utf8::ByteOffset;

// The number at `at` of each item of `step` bytes.
fn fill_numbers(bytes: &[u8], step: usize, at: usize, out: &mut [u32])
    requires { (at + 4 ≤ step) × (length bytes.now / step ≤ length out.old) }
    ensures { out.new ≡ over (items step (length bytes.now / step) (λ i. number_in i at) bytes.now) out.old }
{
    for (i, item) in bytes.chunks_exact(step).enumerate() {
        out[i] = number_at(item, ByteOffset(at));
    }
}

// The flag of each column.
fn fill_flags(bytes: &[u8], out: &mut [u32])
    requires { length bytes.now / 5 ≤ length out.old }
    ensures { out.new ≡ over (flags_in bytes.now) out.old }
{
    for (i, item) in bytes.chunks_exact(5).enumerate() {
        out[i] = u32::from(item[4]);
    }
}

// A split's columns and flags.
pub fn read_columns(
    edit: Edit,
    bytes: &[u8],
    first: &mut [u32],
    second: &mut [u32],
) -> Result<FrameRead, Refusal>
    ensures { (x : List ℕ) → filled (paper_read result) x first.new second.new ≡ read_into (done (format.edit (whole edit [] (columns_in bytes.now) (flags_in bytes.now)))) x first.old second.old }
{
    let count = bytes.len() / 5;
    if first.len() < count {
        return Err(Refusal::NoRoom);
    }
    if second.len() < count {
        return Err(Refusal::NoRoom);
    }
    fill_numbers(bytes, 5, 0, first);
    fill_flags(bytes, second);
    Ok(FrameRead::Edit {
        edit,
        payload: 0,
        first: count,
        second: count,
    })
}

// The widths and pads of chunks.
pub fn read_widths(
    edit: Edit,
    bytes: &[u8],
    first: &mut [u32],
    second: &mut [u32],
) -> Result<FrameRead, Refusal>
    ensures { (x : List ℕ) → filled (paper_read result) x first.new second.new ≡ read_into (done (format.edit (whole edit [] (widths_in bytes.now) (pads_in bytes.now)))) x first.old second.old }
{
    let count = bytes.len() / 8;
    if first.len() < count {
        return Err(Refusal::NoRoom);
    }
    if second.len() < count {
        return Err(Refusal::NoRoom);
    }
    fill_numbers(bytes, 8, 0, first);
    fill_numbers(bytes, 8, 4, second);
    Ok(FrameRead::Edit {
        edit,
        payload: 0,
        first: count,
        second: count,
    })
}
