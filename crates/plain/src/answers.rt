// Answers as records.
ghost use Rattle.std.specs.Prelude.{◌≡◌};
ghost use Rattle.promise.specs.Paper.{done, refused};
ghost use Rattle.utf8.specs.Answers.{paper_decoded, paper_encoded};
ghost use Rattle.text.specs.Answers.{paper_clamped};
ghost use Rattle.fit.specs.Calls.{paper_box_fit};
ghost use Rattle.edit.specs.Call.{paper, number_of, offset_of};
ghost use Rattle.select.specs.Answers.{paper_row_span};
ghost use Rattle.plain.specs.Told.{told_count, told_done, told_applied, found_at, found_of, not_found, told_clamped, told_fit, found_sel, no_sel, no_cover, told_span, no_bounds, told_bounds, ends_of, told_line, no_line};

use crate::edits::{no_edit, origin, told_edit};
use crate::{Bounds, Change, Count, Cover, EditLine, Found, SelFound};
use edit::{Applied, Edit, Refusal, View};
use fit::BoxError;
use select::{RowBounds, RowSpan, Sel, Selection};
use text::Position;
use utf8::{BadText, DecodeError, EncodeError};

fn offset_of(why: Refusal) -> usize
    ensures { result ≡ offset_of why }
{
    match why {
        Refusal::BadUtf8(at) => at.0,
        _ => 0,
    }
}

pub fn counted(count: usize) -> Count
    ensures { result ≡ told_count (done count) }
{
    Count {
        refusal: 0,
        offset: 0,
        count,
    }
}

pub fn not_counted(why: Refusal) -> Count
    ensures { result ≡ told_count (refused (number_of why) (offset_of why)) }
{
    Count {
        refusal: why.number(),
        offset: offset_of(why),
        count: 0,
    }
}

pub fn found_at(at: Position) -> Found
    ensures { result ≡ found_at at }
{
    Found {
        refusal: 0,
        found: true,
        at,
    }
}

pub fn not_found(refusal: u32) -> Found
    ensures { result ≡ not_found refusal }
{
    Found {
        refusal,
        found: false,
        at: origin(),
    }
}

// A position, where there is one.
pub fn found_of(found: Option<Position>) -> Found
    ensures { result ≡ found_of found }
{
    match found {
        Some(at) => found_at(at),
        None => not_found(0),
    }
}

pub fn found_sel(sel: Sel) -> SelFound
    ensures { result ≡ found_sel sel }
{
    SelFound {
        refusal: 0,
        found: true,
        sel,
    }
}

pub fn no_sel(refusal: u32) -> SelFound
    ensures { result ≡ no_sel refusal }
{
    SelFound {
        refusal,
        found: false,
        sel: Sel {
            anchor: origin(),
            head: origin(),
        },
    }
}

pub fn no_cover(refusal: u32) -> Cover
    ensures { result ≡ no_cover refusal }
{
    Cover {
        refusal,
        covered: false,
        open: false,
        lo: 0,
        hi: 0,
    }
}

pub fn no_bounds(refusal: u32) -> Bounds
    ensures { result ≡ no_bounds refusal }
{
    Bounds {
        refusal,
        top: 0,
        bottom: 0,
    }
}

fn changed(applied: Applied) -> Change
    ensures { result ≡ told_done applied }
{
    Change {
        refusal: 0,
        offset: 0,
        view: applied.view,
        inverse: told_edit(applied.inverse),
        payload: applied.payload,
        first: applied.first,
        second: applied.second,
    }
}

pub fn not_changed(view: View, why: Refusal) -> Change
    ensures { result ≡ told_applied view (refused (number_of why) (offset_of why)) }
{
    Change {
        refusal: why.number(),
        offset: offset_of(why),
        view,
        inverse: no_edit(),
        payload: 0,
        first: 0,
        second: 0,
    }
}

// What is told of an edit of the view.
pub fn told_answer(view: View, answer: Result<Applied, Refusal>) -> Change
    ensures { result ≡ told_applied view (paper answer) }
{
    match answer {
        Ok(applied) => changed(applied),
        Err(why) => not_changed(view, why),
    }
}

pub fn told_count(answer: Result<usize, Refusal>) -> Count
    ensures { result ≡ told_count (paper answer) }
{
    match answer {
        Ok(n) => counted(n),
        Err(why) => not_counted(why),
    }
}

pub fn told_decoded(decoded: Result<usize, DecodeError>) -> Count
    ensures { result ≡ told_count (paper_decoded decoded) }
{
    match decoded {
        Ok(n) => counted(n),
        Err(why) => not_counted(Refusal::from(why)),
    }
}

pub fn told_encoded(encoded: Result<usize, EncodeError>) -> Count
    ensures { result ≡ told_count (paper_encoded encoded) }
{
    match encoded {
        Ok(n) => counted(n),
        Err(why) => not_counted(Refusal::from(why)),
    }
}

pub fn told_clamped(clamped: Result<Position, BadText>) -> Found
    ensures { result ≡ told_clamped (paper_clamped clamped) }
{
    match clamped {
        Ok(at) => found_at(at),
        Err(BadText) => not_found(Refusal::BadText.number()),
    }
}

pub fn told_fit(fit: Result<Option<Position>, BoxError>) -> Found
    ensures { result ≡ told_fit (paper_box_fit fit) }
{
    match fit {
        Ok(found) => found_of(found),
        Err(why) => not_found(Refusal::from(why).number()),
    }
}

pub fn told_span(span: RowSpan) -> Cover
    ensures { result ≡ told_span (paper_row_span span) }
{
    match span {
        RowSpan::Outside => no_cover(0),
        RowSpan::Closed { lo, hi } => Cover {
            refusal: 0,
            covered: true,
            open: false,
            lo: lo.0,
            hi: hi.0,
        },
        RowSpan::Open { lo } => Cover {
            refusal: 0,
            covered: true,
            open: true,
            lo: lo.0,
            hi: 0,
        },
    }
}

pub fn told_bounds(bounds: RowBounds) -> Bounds
    ensures { result ≡ told_bounds bounds }
{
    Bounds {
        refusal: 0,
        top: bounds.top.0,
        bottom: bounds.bottom.0,
    }
}

// The two ends of a selection of any kind.
pub fn told_ends(selection: Selection) -> Sel
    ensures { result ≡ ends_of selection }
{
    Sel {
        anchor: selection.anchor(),
        head: selection.head(),
    }
}

// What is told of an edit that a line is.
pub fn line_read(edit: Edit, payload: usize, first: usize, second: usize) -> EditLine
    ensures { result ≡ told_line edit payload first second }
{
    EditLine {
        refusal: 0,
        offset: 0,
        edit: told_edit(edit),
        payload,
        first,
        second,
    }
}

pub fn no_line(why: Refusal) -> EditLine
    ensures { result ≡ no_line (number_of why) (offset_of why) }
{
    EditLine {
        refusal: why.number(),
        offset: offset_of(why),
        edit: no_edit(),
        payload: 0,
        first: 0,
        second: 0,
    }
}
