// The core's functions for C, as include/winchbarn.h declares them: those of `winchbarn`, exported. An archive exports only functions of the
// crate that it is made of, and no crate can stand on such a one.
#![tactic(auto)]

ghost use Rattle.std.specs.Prelude.{◌≡◌};
ghost use Rattle.utf8.specs.Reading.{reading};
ghost use Rattle.utf8.specs.Calls.{decoded, encoded};
ghost use Rattle.text.specs.Calls.{clamped_in};
ghost use Rattle.fit.specs.Calls.{fits_in};
ghost use Rattle.select.specs.Sels as sels;
ghost use Rattle.edit.specs.Call.{lent};
ghost use Rattle.view.specs.Calls.{cursor_set_in};
ghost use Rattle.merge.specs.Call.{merged_in};
ghost use Rattle.frame.specs.Format as format;
ghost use Rattle.frame.specs.Forms.{head_of, line_form};
ghost use Rattle.writer.specs.Calls.{written_into};
ghost use Rattle.asked.specs.Calls.{text_into, mark_in, edit_into};
ghost use Rattle.framed.specs.Calls.{line_applied};
ghost use Rattle.script.specs.Calls.{ran_into};
ghost use Rattle.plain.specs.Told.{told_clamped, told_fit, told_view};
ghost use Rattle.told.specs.Lines.{told_mark};
ghost use Rattle.winchbarn.specs.Calls.{counted, changed, changed_in, framed, told_into, told_merge, told_call, told_frame, edit_call, edit_call_in, line_call, undoable_call, shift_call, sel_call, span_call, head_call, anchor_call, extend_call, bounds_call};

use edit::View;
use plain::{Bounds, Change, Count, Cover, EditLine, Found, Numbers, Said, SelFound, Viewed};
use select::Sel;
use text::Position;

#[unsafe(no_mangle)]
pub extern "C" fn winchbarn_run_script(input: &[u8], out: &mut [u8]) -> Count
    ensures { counted result out.new ≡ told_into (ran_into input.now out.old) }
{
    winchbarn::winchbarn_run_script(input, out)
}

#[unsafe(no_mangle)]
pub extern "C" fn winchbarn_apply_edit(
    text: &mut [u32],
    view: View,
    edit: Numbers,
    payload: &[u32],
    first: &[u32],
    second: &[u32],
    outpayload: &mut [u32],
    outfirst: &mut [u32],
    outsecond: &mut [u32],
) -> Change
    ensures { changed result text.new outpayload.new outfirst.new outsecond.new ≡ edit_call view edit (lent text.old payload.now first.now second.now outpayload.old outfirst.old outsecond.old) }
{
    winchbarn::winchbarn_apply_edit(
        text, view, edit, payload, first, second, outpayload, outfirst, outsecond,
    )
}

#[unsafe(no_mangle)]
pub extern "C" fn winchbarn_apply_frame(
    text: &mut [u32],
    view: View,
    line: &[u8],
    outpayload: &mut [u32],
    outfirst: &mut [u32],
    outsecond: &mut [u32],
) -> Change
    ensures { changed result text.new outpayload.new outfirst.new outsecond.new ≡ told_call view (line_applied view line.now text.old outpayload.old outfirst.old outsecond.old) }
{
    winchbarn::winchbarn_apply_frame(text, view, line, outpayload, outfirst, outsecond)
}

#[unsafe(no_mangle)]
pub extern "C" fn winchbarn_apply_edit_in(
    text: &mut [u32],
    view: &mut View,
    edit: Numbers,
    payload: &[u32],
    first: &[u32],
    second: &[u32],
    outpayload: &mut [u32],
    outfirst: &mut [u32],
    outsecond: &mut [u32],
) -> Change
    ensures { changed_in (changed result text.new outpayload.new outfirst.new outsecond.new) view.new ≡ edit_call_in view.old edit (lent text.old payload.now first.now second.now outpayload.old outfirst.old outsecond.old) }
{
    winchbarn::winchbarn_apply_edit_in(
        text, view, edit, payload, first, second, outpayload, outfirst, outsecond,
    )
}

#[unsafe(no_mangle)]
pub extern "C" fn winchbarn_write_edit(
    edit: Numbers,
    payload: &[u32],
    first: &[u32],
    second: &[u32],
    out: &mut [u8],
) -> Count
    ensures { counted result out.new ≡ line_call edit payload.now first.now second.now out.old }
{
    winchbarn::winchbarn_write_edit(edit, payload, first, second, out)
}

#[unsafe(no_mangle)]
pub extern "C" fn winchbarn_write_text(text: &[u32], out: &mut [u8]) -> Count
    ensures { counted result out.new ≡ told_into (written_into (format.text text.now) out.old) }
{
    winchbarn::winchbarn_write_text(text, out)
}

#[unsafe(no_mangle)]
pub extern "C" fn winchbarn_write_mark(mark: Sel, out: &mut [u8]) -> Count
    ensures { counted result out.new ≡ told_into (written_into (format.mark mark) out.old) }
{
    winchbarn::winchbarn_write_mark(mark, out)
}

#[unsafe(no_mangle)]
pub extern "C" fn winchbarn_read_edit(
    line: &[u8],
    outpayload: &mut [u32],
    outfirst: &mut [u32],
    outsecond: &mut [u32],
) -> EditLine
    ensures { framed result outpayload.new outfirst.new outsecond.new ≡ told_frame (edit_into (line_form line.now) outpayload.old outfirst.old outsecond.old) }
{
    winchbarn::winchbarn_read_edit(line, outpayload, outfirst, outsecond)
}

#[unsafe(no_mangle)]
pub extern "C" fn winchbarn_read_text(line: &[u8], out: &mut [u32]) -> Count
    ensures { counted result out.new ≡ told_into (text_into (line_form line.now) out.old) }
{
    winchbarn::winchbarn_read_text(line, out)
}

#[unsafe(no_mangle)]
pub extern "C" fn winchbarn_read_mark(line: &[u8]) -> SelFound
    ensures { result ≡ told_mark (mark_in (head_of (line_form line.now))) }
{
    winchbarn::winchbarn_read_mark(line)
}

#[unsafe(no_mangle)]
pub extern "C" fn winchbarn_undoable(
    text: &[u32],
    view: View,
    edit: Numbers,
    payload: &[u32],
    first: &[u32],
    second: &[u32],
) -> Said
    ensures { result ≡ undoable_call view edit text.now payload.now first.now second.now }
{
    winchbarn::winchbarn_undoable(text, view, edit, payload, first, second)
}

#[unsafe(no_mangle)]
pub extern "C" fn winchbarn_set_cursor(text: &[u32], view: View, pos: Position) -> Viewed
    ensures { result ≡ told_view view (cursor_set_in text.now view pos) }
{
    winchbarn::winchbarn_set_cursor(text, view, pos)
}

#[unsafe(no_mangle)]
pub extern "C" fn winchbarn_clamp_position(text: &[u32], used: usize, pos: Position) -> Found
    ensures { result ≡ told_clamped (clamped_in text.now used pos) }
{
    winchbarn::winchbarn_clamp_position(text, used, pos)
}

#[unsafe(no_mangle)]
pub extern "C" fn winchbarn_box_fit(text: &[u32], used: usize, cells: u32, tab: u32) -> Found
    ensures { result ≡ told_fit (fits_in text.now used cells tab) }
{
    winchbarn::winchbarn_box_fit(text, used, cells, tab)
}

#[unsafe(no_mangle)]
pub extern "C" fn winchbarn_shift_position(
    text: &[u32],
    view: View,
    edit: Numbers,
    payload: &[u32],
    first: &[u32],
    second: &[u32],
    pos: Position,
) -> Found
    ensures { result ≡ shift_call text.now view edit payload.now first.now second.now pos }
{
    winchbarn::winchbarn_shift_position(text, view, edit, payload, first, second, pos)
}

#[unsafe(no_mangle)]
pub extern "C" fn winchbarn_shift_sel(
    text: &[u32],
    view: View,
    edit: Numbers,
    payload: &[u32],
    first: &[u32],
    second: &[u32],
    sel: Sel,
) -> SelFound
    ensures { result ≡ sel_call text.now view edit payload.now first.now second.now sel }
{
    winchbarn::winchbarn_shift_sel(text, view, edit, payload, first, second, sel)
}

#[unsafe(no_mangle)]
pub extern "C" fn winchbarn_merge_overlapping(sels: &[u32], out: &mut [u32]) -> Count
    ensures { counted result out.new ≡ told_merge (merged_in sels.now out.old) }
{
    winchbarn::winchbarn_merge_overlapping(sels, out)
}

#[unsafe(no_mangle)]
pub extern "C" fn winchbarn_sel_caret(pos: Position) -> Sel
    ensures { result ≡ sels.sel pos pos }
{
    winchbarn::winchbarn_sel_caret(pos)
}

#[unsafe(no_mangle)]
pub extern "C" fn winchbarn_sel_is_caret(sel: Sel) -> bool
    ensures { result ≡ sels.is_caret sel }
{
    winchbarn::winchbarn_sel_is_caret(sel)
}

#[unsafe(no_mangle)]
pub extern "C" fn winchbarn_sel_start(sel: Sel) -> Position
    ensures { result ≡ sels.start sel }
{
    winchbarn::winchbarn_sel_start(sel)
}

#[unsafe(no_mangle)]
pub extern "C" fn winchbarn_sel_end(sel: Sel) -> Position
    ensures { result ≡ sels.end sel }
{
    winchbarn::winchbarn_sel_end(sel)
}

#[unsafe(no_mangle)]
pub extern "C" fn winchbarn_sel_overlaps(sel: Sel, other: Sel) -> bool
    ensures { result ≡ sels.overlaps sel other }
{
    winchbarn::winchbarn_sel_overlaps(sel, other)
}

#[unsafe(no_mangle)]
pub extern "C" fn winchbarn_selection_head(kind: u32, sel: Sel) -> Found
    ensures { result ≡ head_call kind sel }
{
    winchbarn::winchbarn_selection_head(kind, sel)
}

#[unsafe(no_mangle)]
pub extern "C" fn winchbarn_selection_anchor(kind: u32, sel: Sel) -> Found
    ensures { result ≡ anchor_call kind sel }
{
    winchbarn::winchbarn_selection_anchor(kind, sel)
}

#[unsafe(no_mangle)]
pub extern "C" fn winchbarn_selection_extend_to(kind: u32, sel: Sel, pos: Position) -> SelFound
    ensures { result ≡ extend_call kind sel pos }
{
    winchbarn::winchbarn_selection_extend_to(kind, sel, pos)
}

#[unsafe(no_mangle)]
pub extern "C" fn winchbarn_selection_row_bounds(kind: u32, sel: Sel) -> Bounds
    ensures { result ≡ bounds_call kind sel }
{
    winchbarn::winchbarn_selection_row_bounds(kind, sel)
}

#[unsafe(no_mangle)]
pub extern "C" fn winchbarn_row_span(kind: u32, sel: Sel, row: u32) -> Cover
    ensures { result ≡ span_call kind sel row }
{
    winchbarn::winchbarn_row_span(kind, sel, row)
}

#[unsafe(no_mangle)]
pub extern "C" fn winchbarn_decode(bytes: &[u8], out: &mut [u32]) -> Count
    ensures { counted result out.new ≡ told_into (decoded (reading bytes.now) out.old) }
{
    winchbarn::winchbarn_decode(bytes, out)
}

#[unsafe(no_mangle)]
pub extern "C" fn winchbarn_encode(scalars: &[u32], out: &mut [u8]) -> Count
    ensures { counted result out.new ≡ told_into (encoded scalars.now out.old) }
{
    winchbarn::winchbarn_encode(scalars, out)
}
