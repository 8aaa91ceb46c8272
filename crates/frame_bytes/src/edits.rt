// The bytes of an edit's frame, to the front of a slice that has room for them.
ghost use Rattle.std.specs.Prelude.{true, [], ◌≡◌, ◌+◌, ◌*◌, ◌≤◌, leb, length};
ghost use Rattle.promise.specs.Slices.{over};
ghost use Rattle.text.specs.Text.{all};
ghost use Rattle.utf8.specs.Reading.{all_scalar, writing};
ghost use Rattle.edit.specs.declared.Edit.TheVariants.{InsertStr, DeleteRange, JoinLines, SplitLines, Replace, InsertBlock, DeleteBlockChunks};
ghost use Rattle.edit.specs.Refusals.{sum};
ghost use Rattle.frame.specs.Format.{kind_byte, edit_bytes, has_bytes, edit_chars};
ghost use Rattle.frame.specs.Sizes.{size_of};

use crate::lists::{put_chunks, put_columns, put_widths};
use crate::puts::{put_number, put_position};
use edit::{Edit, MotionKind};
use encoding::fill_octets;
use text::{Position, Row};
use utf8::ByteOffset;

fn kind_byte(kind: MotionKind) -> u8
    ensures { result ≡ kind_byte kind }
{
    match kind {
        MotionKind::Char => 0,
        MotionKind::Line => 1,
        MotionKind::Block => 2,
    }
}

fn put_insert(bytes: &mut [u8], at: Position, payload: &[u32])
    requires { (all_scalar payload.now ≡ true) × (9 + length (writing payload.now) ≤ length bytes.old) }
    ensures { bytes.new ≡ over (edit_bytes (InsertStr at) payload.now [] []) bytes.old }
{
    bytes[0] = 0x10;
    put_position(bytes, ByteOffset(1), at);
    fill_octets(payload, &mut bytes[9..]);
}

fn put_delete(bytes: &mut [u8], start: Position, end: Position, kind: MotionKind)
    requires { 18 ≤ length bytes.old }
    ensures { bytes.new ≡ over (edit_bytes (DeleteRange start end kind) [] [] []) bytes.old }
{
    bytes[0] = 0x11;
    bytes[1] = kind_byte(kind);
    put_position(bytes, ByteOffset(2), start);
    put_position(bytes, ByteOffset(10), end);
}

fn put_join(bytes: &mut [u8], row: Row, count: u32, spaced: bool)
    requires { 10 ≤ length bytes.old }
    ensures { bytes.new ≡ over (edit_bytes (JoinLines row count spaced) [] [] []) bytes.old }
{
    bytes[0] = 0x12;
    put_number(bytes, ByteOffset(1), row.0);
    put_number(bytes, ByteOffset(5), count);
    bytes[9] = u8::from(spaced);
}

fn put_split(bytes: &mut [u8], row: Row, cols: &[u32], flags: &[u32])
    requires { (length cols.now ≡ length flags.now) × (all (λ b. leb b 1) flags.now ≡ true) × (5 + 5 * length cols.now ≤ length bytes.old) }
    ensures { bytes.new ≡ over (edit_bytes (SplitLines row) [] cols.now flags.now) bytes.old }
{
    bytes[0] = 0x13;
    put_number(bytes, ByteOffset(1), row.0);
    put_columns(&mut bytes[5..], cols, flags);
}

fn put_replace(bytes: &mut [u8], start: Position, end: Position, payload: &[u32])
    requires { (all_scalar payload.now ≡ true) × (17 + length (writing payload.now) ≤ length bytes.old) }
    ensures { bytes.new ≡ over (edit_bytes (Replace start end) payload.now [] []) bytes.old }
{
    bytes[0] = 0x14;
    put_position(bytes, ByteOffset(1), start);
    put_position(bytes, ByteOffset(9), end);
    fill_octets(payload, &mut bytes[17..]);
}

fn put_block(bytes: &mut [u8], at: Position, payload: &[u32], lens: &[u32])
    requires { (sum lens.now ≡ length payload.now) × (all_scalar payload.now ≡ true) × (9 + (4 * length lens.now + length (writing payload.now)) ≤ 18_432) × (9 + (4 * length lens.now + length (writing payload.now)) ≤ length bytes.old) }
    ensures { bytes.new ≡ over (edit_bytes (InsertBlock at) payload.now lens.now []) bytes.old }
{
    bytes[0] = 0x15;
    put_position(bytes, ByteOffset(1), at);
    put_chunks(&mut bytes[9..], payload, lens);
}

fn put_chunk_cuts(bytes: &mut [u8], at: Position, widths: &[u32], pads: &[u32])
    requires { (length widths.now ≡ length pads.now) × (9 + 8 * length widths.now ≤ length bytes.old) }
    ensures { bytes.new ≡ over (edit_bytes (DeleteBlockChunks at) [] widths.now pads.now) bytes.old }
{
    bytes[0] = 0x16;
    put_position(bytes, ByteOffset(1), at);
    put_widths(&mut bytes[9..], widths, pads);
}

// An edit that has a frame of at most so many bytes as a line holds, and a slice as long as that.
pub fn put_edit(bytes: &mut [u8], edit: Edit, payload: &[u32], first: &[u32], second: &[u32])
    requires { (has_bytes edit payload.now first.now second.now ≡ true) × (all_scalar (edit_chars edit payload.now) ≡ true) × (size_of edit (length first.now) (length (writing (edit_chars edit payload.now))) ≤ 18_432) × (18_432 ≤ length bytes.old) }
    ensures { bytes.new ≡ over (edit_bytes edit payload.now first.now second.now) bytes.old }
{
    match edit {
        Edit::InsertChar { .. } => {}
        Edit::InsertStr { at } => put_insert(bytes, at, payload),
        Edit::DeleteRange { start, end, kind } => put_delete(bytes, start, end, kind),
        Edit::JoinLines {
            row,
            count,
            with_space,
        } => put_join(bytes, row, count, with_space),
        Edit::SplitLines { row } => put_split(bytes, row, first, second),
        Edit::Replace { start, end } => put_replace(bytes, start, end, payload),
        Edit::InsertBlock { at } => put_block(bytes, at, payload, first),
        Edit::DeleteBlockChunks { at } => put_chunk_cuts(bytes, at, first, second),
    }
}
