// An edit, whole: judged, and then done by the worker of its kind.
#![tactic(auto)]

ghost use Rattle.std.specs.Prelude.{◌≡◌};
ghost use Rattle.promise.specs.Paper.{done};
ghost use Rattle.edit.specs.Call.{verdict_of, lent, given_tests, Promised};

use blocks::insert_block;
use chunks::{delete_block, delete_chunks};
use edit::{Applied, Edit, MotionKind, Refusal, Room, View};
use flat::{delete_chars, delete_lines, insert, replace};
use given::judge;
use joins::{join, split};

// The edit done, once rows 1 to 4 are known not to refuse it. The slices are those of `apply_edit`.
pub fn apply_judged(
    text: &mut [u32],
    view: View,
    edit: Edit,
    payload: &[u32],
    first: &[u32],
    second: &[u32],
    outpayload: &mut [u32],
    outfirst: &mut [u32],
    outsecond: &mut [u32],
) -> Result<Applied, Refusal>
    requires { verdict_of (given_tests view edit (lent text.old payload.now first.now second.now outpayload.old outfirst.old outsecond.old)) ≡ done tt }
    ensures { Promised result text.new outpayload.new outfirst.new outsecond.new view edit (lent text.old payload.now first.now second.now outpayload.old outfirst.old outsecond.old) }
{
    let room = Room {
        buffer: text.len(),
        payload: outpayload.len(),
        first: outfirst.len(),
        second: outsecond.len(),
    };
    match edit {
        Edit::InsertChar { at } => insert(text, view, room, at, payload),
        Edit::InsertStr { at } => insert(text, view, room, at, payload),
        Edit::DeleteRange { start, end, kind } => match kind {
            MotionKind::Char => delete_chars(text, view, room, start, end, outpayload),
            MotionKind::Line => delete_lines(text, view, room, start, end, outpayload),
            MotionKind::Block => delete_block(text, view, room, start, end, outpayload, outfirst),
        },
        Edit::JoinLines {
            row,
            count,
            with_space: spaced,
        } => join(text, view, room, row, count, spaced, outfirst, outsecond),
        Edit::SplitLines { row } => split(text, view, room, row, first, second),
        Edit::Replace { start, end } => {
            replace(text, view, room, start, end, payload, outpayload)
        }
        Edit::InsertBlock { at } => {
            insert_block(text, view, room, at, payload, first, outfirst, outsecond)
        }
        Edit::DeleteBlockChunks { at } => {
            delete_chunks(text, view, room, at, first, second, outpayload, outfirst)
        }
    }
}

// The slices: the text's buffer; the edit's payload and lists; and the room for the inverse's payload and lists.
pub fn apply_edit(
    text: &mut [u32],
    view: View,
    edit: Edit,
    payload: &[u32],
    first: &[u32],
    second: &[u32],
    outpayload: &mut [u32],
    outfirst: &mut [u32],
    outsecond: &mut [u32],
) -> Result<Applied, Refusal>
    ensures { Promised result text.new outpayload.new outfirst.new outsecond.new view edit (lent text.old payload.now first.now second.now outpayload.old outfirst.old outsecond.old) }
{
    judge(text, view, edit, payload, first, second)?;
    apply_judged(
        text, view, edit, payload, first, second, outpayload, outfirst, outsecond,
    )
}
