// The worker for InsertBlock: a chunk goes into each row that there is, from a row on.
#![tactic(auto)]

ghost use Rattle.std.specs.Prelude.{◌≡◌, true, not, List, ℕ, ◌+◌, ◌-◌, ◌≤◌, min, T, length, take};
ghost use Rattle.text.specs.Rows.{row_count, last_row, row_start};
ghost use Rattle.text.specs.Text.{is_lf, text_limit, all};
ghost use Rattle.edit.specs.Edits.{block_inserted};
ghost use Rattle.edit.specs.Refusals.{is_space, spaces, sum};
ghost use Rattle.edit.specs.Call.{paper, outcome, lent, room_of, finished};
ghost use Rattle.blocks.specs.Blocks.{put_at, last_end, left, put_from, left_by};

use edit::{Applied, Edit, Plan, Refusal, Room, View};
use text::{CharOffset, Position, Row};

// Where a chunk goes into a row, how many spaces come before it, and where the row ends.
#[derive(Clone, Copy)]
struct Put {
    at: CharOffset,
    pad: u32,
    end: CharOffset,
}

// How long the text is once the chunks are in, and where in the text as it is the first row that gets one starts and the
// last ends; where none gets one, the text's end.
#[derive(Clone, Copy)]
struct Extent {
    size: usize,
    start: CharOffset,
    end: CharOffset,
}

// How many rows the text has from this one on, at most so many.
pub fn rows_from(text: &[u32], row: Row, most: usize) -> usize
    requires { length text.now ≤ text_limit }
    ensures { result ≡ min most (row_count is_lf text.now - row.0) }
{
    let below = rows::row_count(text).saturating_sub(row.0);
    most.min(below as usize)
}

// The row of `pos` begins at `begin`.
fn put_splice(text: &[u32], begin: CharOffset, pos: Position) -> Put
    requires { (length text.now ≤ text_limit) × (pos.row.0 ≤ last_row is_lf text.now) × (begin.0 ≡ row_start is_lf text.now pos.row.0) }
    ensures { result ≡ put_at text.now pos }
{
    let start = begin.0;
    let len = rows::line_char_count(&text[start..], Row(0));
    let col = pos.col;
    let within = col.min(len);
    Put {
        at: CharOffset(start + within.0 as usize),
        pad: col.0 - within.0,
        end: CharOffset(start + len.0 as usize),
    }
}

// What the chunks need, whatever they hold.
fn put_size(text: &[u32], at: Position, lens: &[u32]) -> Extent
    requires { (length text.now ≤ text_limit) × (at.row.0 ≤ 1_000_000) × (length lens.now ≤ 256) × (length lens.now ≤ row_count is_lf text.now - at.row.0) }
    ensures { ((x : List ℕ) → sum lens.now ≤ length x → result.size ≡ length (block_inserted is_lf is_space spaces text.now at x lens.now).text) × (result.start.0 ≡ row_start is_lf text.now at.row.0) × (result.end.0 ≡ last_end text.now at.row.0 (length lens.now)) }
{
    let row = at.row.0;
    let col = at.col;
    let mut size = text.len();
    let mut end = text.len();
    let first = rows::line_to_char(text, at.row).0;
    let mut start = first;
    for (k, len) in lens.iter().enumerate() {
        let pos = Position {
            row: Row(row + k as u32),
            col,
        };
        let put = put_splice(text, CharOffset(start), pos);
        let pad = put.pad as usize;
        let len = *len as usize;
        size += pad + len;
        end = put.end.0;
        start = end + 1;
    }
    Extent {
        size,
        start: CharOffset(first),
        end: CharOffset(end),
    }
}

// Puts the chunks in, one to each row. The first of these rows begins at `begin`.
fn put_rows(
    text: &mut [u32],
    used: usize,
    begin: CharOffset,
    at: Position,
    payload: &[u32],
    lens: &[u32],
    pads: &mut [u32],
)
    requires { (used ≤ length text.old) × (begin.0 ≡ row_start is_lf (take used text.old) at.row.0) × (at.row.0 ≤ 1_000_000) × (length lens.now ≤ 256) × (length lens.now ≤ row_count is_lf (take used text.old) - at.row.0) × (sum lens.now ≤ length payload.now) × T (all (λ c. not (is_lf c)) payload.now) × (length (put_from text.old used at payload.now lens.now).text ≤ length text.old) × (length (put_from text.old used at payload.now lens.now).text ≤ text_limit) × (length lens.now ≤ length pads.old) }
    ensures { left text.new pads.new ≡ left_by (put_from text.old used at payload.now lens.now) text.old used pads.old }
{
    let row = at.row.0;
    let col = at.col;
    let mut long = used;
    let mut start = begin.0;
    let mut from = 0;
    for (k, len) in lens.iter().enumerate() {
        let pos = Position {
            row: Row(row + k as u32),
            col,
        };
        let put = put_splice(&text[0..long], CharOffset(start), pos);
        let pad = put.pad as usize;
        let len = *len as usize;
        let end = from + len;
        splice::open_padded(text, long, put.at, pad, &payload[from..end]);
        pads[k] = put.pad;
        long += pad + len;
        start = put.end.0 + pad + len + 1;
        from = end;
    }
}

// Puts the chunks in, the text behind the last of their rows moved once.
fn put_chunks(
    text: &mut [u32],
    used: usize,
    extent: Extent,
    at: Position,
    payload: &[u32],
    lens: &[u32],
    pads: &mut [u32],
)
    requires { (used ≤ length text.old) × (at.row.0 ≤ 1_000_000) × (length lens.now ≤ 256) × (length lens.now ≤ row_count is_lf (take used text.old) - at.row.0) × (sum lens.now ≤ length payload.now) × T (all (λ c. not (is_lf c)) payload.now) × (extent.size ≡ length (put_from text.old used at payload.now lens.now).text) × (extent.start.0 ≡ row_start is_lf (take used text.old) at.row.0) × (extent.end.0 ≡ last_end (take used text.old) at.row.0 (length lens.now)) × (extent.size ≤ length text.old) × (extent.size ≤ text_limit) × (length lens.now ≤ length pads.old) }
    ensures { left text.new pads.new ≡ left_by (put_from text.old used at payload.now lens.now) text.old used pads.old }
{
    let start = extent.start.0;
    let end = extent.end.0;
    let size = extent.size;
    let grown = size - used;
    splice::open_padded(text, used, CharOffset(end), grown, &[]);
    put_rows(
        &mut text[0..end + grown],
        end,
        CharOffset(start),
        at,
        payload,
        lens,
        pads,
    );
}

pub fn insert_block(
    text: &mut [u32],
    view: View,
    room: Room,
    at: Position,
    payload: &[u32],
    lens: &[u32],
    widths: &mut [u32],
    pads: &mut [u32],
) -> Result<Applied, Refusal>
    requires { (view.used ≤ length text.old) × (view.used ≤ text_limit) × (at.row.0 ≤ 1_000_000) × (length lens.now ≤ 256) × (sum lens.now ≡ length payload.now) × T (all (λ c. not (is_lf c)) payload.now) × (room.buffer ≡ length text.old) × (room.first ≡ length widths.old) × (room.second ≡ length pads.old) }
    ensures { (x f s op : List ℕ) → room_of (lent text.old x f s op widths.old pads.old) ≡ room → outcome (paper result) text.new op widths.new pads.new ≡ finished true view (lent text.old x f s op widths.old pads.old) (block_inserted is_lf is_space spaces (take view.used text.old) at payload.now lens.now) }
{
    let used = view.used;
    let count = lens.len();
    let rows = rows_from(&text[0..used], at.row, count);
    let extent = put_size(&text[0..used], at, &lens[0..rows]);
    let size = extent.size;
    let planned = Plan {
        used: size,
        payload: 0,
        first: count,
        second: count,
    };
    plan::judge(true, room, planned)?;
    put_chunks(text, used, extent, at, payload, &lens[0..rows], pads);
    splice::fill(pads, CharOffset(rows), count - rows, 0);
    splice::copy_in(widths, CharOffset(0), lens);
    let cursor = rows::clamp(&text[0..size], at);
    Ok(Applied {
        view: plan::next_view(view, size, cursor),
        inverse: Edit::DeleteBlockChunks { at },
        payload: 0,
        first: count,
        second: count,
    })
}
