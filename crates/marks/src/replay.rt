// What the port answers to a case.
use crate::case::{Case, Shift};
use edit::{Refusal, View};
use merge::merge_overlapping;
use select::{RowSpan, Sel, Selection};
use shift::{shift_position, shift_sel};
use std::io;
use text::{Position, Row};
use trials::{Spot, position};

// The most numbers that are merged here.
const MERGED: usize = 64;

fn print_refused(out: &impl Print, refusal: Refusal) -> io::Result<()> {
    print!(out; "refused {}", refusal.number())
}

fn print_shifted(out: &impl Print, answer: Result<Option<Position>, Refusal>) -> io::Result<()> {
    match answer {
        Ok(Some(pos)) => print!(out; "to {}", Spot(pos)),
        Ok(None) => print!(out; "dropped"),
        Err(why) => print_refused(out, why),
    }
}

fn print_sel_shifted(out: &impl Print, answer: Result<Option<Sel>, Refusal>) -> io::Result<()> {
    match answer {
        Ok(Some(sel)) => print!(out; "{} {}", Spot(sel.anchor), Spot(sel.head)),
        Ok(None) => print!(out; "dropped"),
        Err(why) => print_refused(out, why),
    }
}

fn replay_shift(out: &impl Print, shift: Shift<'_>) -> io::Result<()> {
    let Shift {
        edit,
        sel,
        text,
        payload,
        first,
        second,
    } = shift;
    let view = View {
        used: text.len(),
        cursor: position(0, 0),
        changes: 0,
    };
    let anchor = shift_position(text, view, edit, payload, first, second, sel.anchor);
    print_shifted(out, anchor)?;
    print!(out; " both ")?;
    let both = shift_sel(text, view, edit, payload, first, second, sel);
    print_sel_shifted(out, both)
}

fn print_numbers(out: &impl Print, numbers: &[u32]) -> io::Result<()> {
    for n in numbers {
        print!(out; " {n}")?;
    }
    Ok(())
}

// Printed is how many are left, and which, where these are few.
fn replay_merge(out: &impl Print, sels: &[u32]) -> io::Result<()> {
    let mut merged = [0; MERGED];
    match merge_overlapping(sels, &mut merged) {
        Ok(count) => {
            print!(out; "merged {count}")?;
            let numbers = merged.get(..count.saturating_mul(4));
            print_numbers(out, numbers.unwrap_or_default())
        }
        Err(why) => print_refused(out, why),
    }
}

fn print_span(out: &impl Print, span: RowSpan) -> io::Result<()> {
    match span {
        RowSpan::Outside => print!(out; " outside"),
        RowSpan::Closed { lo, hi } => print!(out; " from {} to {}", lo.0, hi.0),
        RowSpan::Open { lo } => print!(out; " from {}", lo.0),
    }
}

fn replay_selection(out: &impl Print, selection: Selection, row: Row) -> io::Result<()> {
    let anchor = Spot(selection.anchor());
    let head = Spot(selection.head());
    let bounds = selection.row_bounds();
    let top = bounds.top.0;
    let bottom = bounds.bottom.0;
    print!(out; "anchor {anchor} head {head} rows {top} {bottom}")?;
    print_span(out, selection.row_span(row))
}

pub(crate) fn replay(out: &impl Print, case: Case<'_>) -> io::Result<()> {
    match case {
        Case::Shift(shift) => replay_shift(out, shift)?,
        Case::Merge(sels) => replay_merge(out, sels)?,
        Case::Select(selection, row) => replay_selection(out, selection, row)?,
    }
    println!(out)
}
