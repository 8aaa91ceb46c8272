// The workers for DeleteBlockChunks and for a Block delete: from a row on, a chunk goes from each row that there is.
#![tactic(auto)]

ghost use Rattle.std.specs.Prelude.{◌≡◌, true, List, ℕ, ◌+◌, ◌-◌, ◌≤◌, min, length, take, get_or};
ghost use Rattle.std.proofs.Math.Seq.{paste, slice};
ghost use Rattle.text.specs.Rows.{row_count, last_row, row_start};
ghost use Rattle.text.specs.Text.{is_lf, text_limit};
ghost use Rattle.splice.specs.Splice.{gap, gap_removed};
ghost use Rattle.edit.specs.declared.MotionKind.TheVariants.{Block};
ghost use Rattle.edit.specs.Edits.{chunks_deleted, range_deleted, height};
ghost use Rattle.edit.specs.Refusals.{is_space, spaces};
ghost use Rattle.edit.specs.Call.{paper, outcome, lent, room_of, finished};
ghost use Rattle.chunks.specs.Chunks.{cut_at, sizes_of, left, cut_from, left_by};

use edit::{Applied, Edit, Plan, Refusal, Room, View, extent};
use text::{CharOffset, Col, Position, Row};

// Where a row's cut begins, where the chunk begins in it, behind the padding, where both end, and where the row ends.
#[derive(Clone, Copy)]
struct Cut {
    from: CharOffset,
    chunk: CharOffset,
    to: CharOffset,
    end: CharOffset,
}

// How long the text will be, how long all chunks are together, where the first row of the block starts and where the last row that
// is cut ends; with no such row, where the text ends.
#[derive(Clone, Copy)]
struct Sizes {
    used: usize,
    payload: usize,
    start: CharOffset,
    end: CharOffset,
}

// A missing pad is 0.
fn pad_at(pads: &[u32], k: usize) -> u32
    ensures { result ≡ get_or pads.now k 0 }
{
    pads.get(k).copied().unwrap_or(0)
}

// The row of `pos` begins at `begin`.
fn cut_splice(text: &[u32], begin: CharOffset, pos: Position, width: u32, pad: u32) -> Cut
    requires { (length text.now ≤ text_limit) × (pos.row.0 ≤ last_row is_lf text.now) × (begin.0 ≡ row_start is_lf text.now pos.row.0) }
    ensures { result ≡ cut_at text.now pos width pad }
{
    let start = begin.0;
    let len = rows::line_char_count(&text[start..], Row(0));
    let col = pos.col;
    let left = Col(col.0.saturating_sub(pad)).min(len);
    let chunk = col.min(len);
    let wide = Col(width).min(Col(len.0 - chunk.0));
    Cut {
        from: CharOffset(start + left.0 as usize),
        chunk: CharOffset(start + chunk.0 as usize),
        to: CharOffset(start + chunk.0 as usize + wide.0 as usize),
        end: CharOffset(start + len.0 as usize),
    }
}

fn cut_size(text: &[u32], at: Position, widths: &[u32], pads: &[u32]) -> Sizes
    requires { (length text.now ≤ text_limit) × (at.row.0 ≤ 1_000_000) × (length widths.now ≤ 256) × (length widths.now ≤ row_count is_lf text.now - at.row.0) }
    ensures { result ≡ sizes_of text.now at widths.now pads.now }
{
    let row = at.row.0;
    let col = at.col;
    let mut gone = 0;
    let mut payload = 0;
    let first = rows::line_to_char(text, at.row);
    let mut start = first.0;
    let mut end = text.len();
    for (k, width) in widths.iter().enumerate() {
        let pos = Position {
            row: Row(row + k as u32),
            col,
        };
        let cut = cut_splice(text, CharOffset(start), pos, *width, pad_at(pads, k));
        gone += cut.to.0 - cut.from.0;
        payload += cut.to.0 - cut.chunk.0;
        end = cut.end.0;
        start = end + 1;
    }
    Sizes {
        used: text.len() - gone,
        payload,
        start: first,
        end: CharOffset(end),
    }
}

// Copies a chunk to the places from `filled` on, and takes the cut out of the text.
fn cut_row(text: &mut [u32], used: usize, cut: Cut, out: &mut [u32], filled: usize)
    requires { (cut.from.0 ≤ cut.chunk.0) × (cut.chunk.0 ≤ cut.to.0) × (cut.to.0 ≤ used) × (used ≤ length text.old) × (filled + (cut.to.0 - cut.chunk.0) ≤ length out.old) }
    ensures { gap text.new out.new ≡ gap (gap_removed text.old used cut.from.0 cut.to.0) (paste out.old filled (slice cut.chunk.0 cut.to.0 text.old) (cut.to.0 - cut.chunk.0)) }
{
    let chunk = cut.chunk.0;
    let end = cut.to.0;
    splice::copy_in(out, CharOffset(filled), &text[chunk..end]);
    splice::remove(text, used, CharOffset(cut.from.0), CharOffset(end));
}

// Cuts the chunks out, one from each row. The first of the rows begins at `begin`.
fn cut_rows(
    text: &mut [u32],
    used: usize,
    begin: CharOffset,
    at: Position,
    widths: &[u32],
    pads: &[u32],
    out: &mut [u32],
    lens: &mut [u32],
)
    requires { (used ≤ length text.old) × (used ≤ text_limit) × (at.row.0 ≤ 1_000_000) × (length widths.now ≤ 256) × (length widths.now ≤ row_count is_lf (take used text.old) - at.row.0) × (length (cut_from text.old used at widths.now pads.now).inverse.payload ≤ length out.old) × (length widths.now ≤ length lens.old) × (begin.0 ≡ row_start is_lf (take used text.old) at.row.0) }
    ensures { left text.new out.new lens.new ≡ left_by (cut_from text.old used at widths.now pads.now) text.old used out.old lens.old }
{
    let row = at.row.0;
    let col = at.col;
    let mut long = used;
    let mut start = begin.0;
    let mut filled = 0;
    for (k, width) in widths.iter().enumerate() {
        let pos = Position {
            row: Row(row + k as u32),
            col,
        };
        let pad = pad_at(pads, k);
        let cut = cut_splice(&text[0..long], CharOffset(start), pos, *width, pad);
        cut_row(text, long, cut, out, filled);
        let len = cut.to.0 - cut.chunk.0;
        let gone = cut.to.0 - cut.from.0;
        lens[k] = len as u32;
        filled += len;
        long -= gone;
        start = cut.end.0 - gone + 1;
    }
}

// Cuts the chunks out of the text up to where the last of the rows ends, and then moves what is behind once.
fn cut_block(
    text: &mut [u32],
    used: usize,
    sizes: Sizes,
    at: Position,
    widths: &[u32],
    pads: &[u32],
    out: &mut [u32],
    lens: &mut [u32],
)
    requires { (used ≤ length text.old) × (used ≤ text_limit) × (at.row.0 ≤ 1_000_000) × (length widths.now ≤ 256) × (length widths.now ≤ row_count is_lf (take used text.old) - at.row.0) × (length (cut_from text.old used at widths.now pads.now).inverse.payload ≤ length out.old) × (length widths.now ≤ length lens.old) × (sizes ≡ sizes_of (take used text.old) at widths.now pads.now) }
    ensures { left text.new out.new lens.new ≡ left_by (cut_from text.old used at widths.now pads.now) text.old used out.old lens.old }
{
    let start = sizes.start;
    let end = sizes.end.0;
    let gone = used - sizes.used;
    cut_rows(&mut text[0..end], end, start, at, widths, pads, out, lens);
    splice::remove(text, used, CharOffset(end - gone), CharOffset(end));
}

pub fn delete_chunks(
    text: &mut [u32],
    view: View,
    room: Room,
    at: Position,
    widths: &[u32],
    pads: &[u32],
    out: &mut [u32],
    lens: &mut [u32],
) -> Result<Applied, Refusal>
    requires { (view.used ≤ length text.old) × (view.used ≤ text_limit) × (at.row.0 ≤ 1_000_000) × (length widths.now ≤ 256) × (room.buffer ≡ length text.old) × (room.payload ≡ length out.old) × (room.first ≡ length lens.old) }
    ensures { (x f s os : List ℕ) → room_of (lent text.old x f s out.old lens.old os) ≡ room → outcome (paper result) text.new out.new lens.new os ≡ finished true view (lent text.old x f s out.old lens.old os) (chunks_deleted is_lf is_space spaces (take view.used text.old) at widths.now pads.now) }
{
    let used = view.used;
    let count = widths.len();
    let rows = blocks::rows_from(&text[0..used], at.row, count);
    let sizes = cut_size(&text[0..used], at, &widths[0..rows], pads);
    let size = sizes.used;
    let planned = Plan {
        used: size,
        payload: sizes.payload,
        first: count,
        second: 0,
    };
    plan::judge(true, room, planned)?;
    cut_block(text, used, sizes, at, &widths[0..rows], pads, out, lens);
    splice::fill(lens, CharOffset(rows), count - rows, 0);
    let cursor = rows::clamp(&text[0..size], at);
    Ok(Applied {
        view: plan::next_view(view, size, cursor),
        inverse: Edit::InsertBlock { at },
        payload: sizes.payload,
        first: count,
        second: 0,
    })
}

pub fn delete_block(
    text: &mut [u32],
    view: View,
    room: Room,
    start: Position,
    end: Position,
    out: &mut [u32],
    lens: &mut [u32],
) -> Result<Applied, Refusal>
    requires { (view.used ≤ length text.old) × (view.used ≤ text_limit) × (start.row.0 ≤ 1_000_000) × (start.col.0 ≤ 1_000_000) × (end.row.0 ≤ 1_000_000) × (end.col.0 ≤ 1_000_000) × (height start end ≤ 256) × (room.buffer ≡ length text.old) × (room.payload ≡ length out.old) × (room.first ≡ length lens.old) }
    ensures { (x f s os : List ℕ) → room_of (lent text.old x f s out.old lens.old os) ≡ room → outcome (paper result) text.new out.new lens.new os ≡ finished true view (lent text.old x f s out.old lens.old os) (range_deleted is_lf is_space spaces (take view.used text.old) start end Block) }
{
    let height = extent(start.row.0, end.row.0);
    let breadth = extent(start.col.0, end.col.0) as u32;
    let corner = Position {
        row: start.row.min(end.row),
        col: start.col.min(end.col),
    };
    let widths = [breadth; 256];
    delete_chunks(text, view, room, corner, &widths[0..height], &[], out, lens)
}
