// What a trial came to.
use crate::calls::Lent;
use edit::{Applied, Edit, Refusal, View};
use std::{fmt, io};
use trials::{Kind, Spot};
use utf8::BadText;

// The most items that are printed.
const SHORT: usize = 24;

// A view, behind what was done.
#[derive(Clone, Copy)]
struct Shown(View);

impl fmt::Display for Shown {
    fn fmt<W: fmt::Write>(&self, f: &mut fmt::Formatter<W>) -> fmt::Result {
        let View {
            used,
            cursor,
            changes,
        } = self.0;
        let cursor = Spot(cursor);
        write!(f, ": used {used}, cursor {cursor}, changes {changes}")
    }
}

// The first so many of the items, behind their name: nothing where there are none.
fn write_items<W: fmt::Write>(
    f: &mut fmt::Formatter<W>,
    name: &str,
    items: &[u32],
    count: usize,
) -> fmt::Result {
    if count == 0 {
        return Ok(());
    }
    write!(f, " {name}")?;
    for item in items.iter().take(count) {
        write!(f, " {item:X}")?;
    }
    Ok(())
}

// An edit's own numbers.
#[derive(Clone, Copy)]
struct Numbers(Edit);

impl fmt::Display for Numbers {
    fn fmt<W: fmt::Write>(&self, f: &mut fmt::Formatter<W>) -> fmt::Result {
        match self.0 {
            Edit::InsertChar { at }
            | Edit::InsertStr { at }
            | Edit::InsertBlock { at }
            | Edit::DeleteBlockChunks { at } => write!(f, "{}", Spot(at)),
            Edit::DeleteRange { start, end, .. } | Edit::Replace { start, end } => {
                write!(f, "{} {}", Spot(start), Spot(end))
            }
            Edit::JoinLines { row, count, .. } => write!(f, "{} {count}", row.0),
            Edit::SplitLines { row } => write!(f, "{}", row.0),
        }
    }
}

// An edit that was made, with the view that was lent, all else that was, and the checksum of that.
#[derive(Clone, Copy)]
pub(crate) struct Done<'a> {
    pub(crate) view: View,
    pub(crate) applied: Applied,
    pub(crate) lent: &'a Lent,
    pub(crate) sum: u32,
}

impl Done<'_> {
    // The text and the record, each where it is short.
    fn write_short<W: fmt::Write>(&self, f: &mut fmt::Formatter<W>) -> fmt::Result {
        let Lent {
            text,
            payload,
            first,
            second,
        } = self.lent;
        let used = self.view.used;
        if used <= SHORT {
            write_items(f, "text", text, used)?;
        }
        let done = self.applied;
        let recorded = done.payload.saturating_add(done.first);
        if recorded.saturating_add(done.second) <= SHORT {
            write_items(f, "payload", payload, done.payload)?;
            write_items(f, "first", first, done.first)?;
            write_items(f, "second", second, done.second)?;
        }
        Ok(())
    }
}

impl fmt::Display for Done<'_> {
    fn fmt<W: fmt::Write>(&self, f: &mut fmt::Formatter<W>) -> fmt::Result {
        let Applied {
            inverse,
            payload,
            first,
            second,
            ..
        } = self.applied;
        let view = Shown(self.view);
        let kind = Kind::from(inverse) as u32;
        write!(
            f,
            "done{view}, inverse {kind}, record {payload} {first} {second}"
        )?;
        self.write_short(f)?;
        let numbers = Numbers(inverse);
        let sum = self.sum;
        write!(f, " numbers {numbers} sum {sum}")
    }
}

pub(crate) fn print_refused(out: &impl Print, refusal: Refusal, is_same: bool) -> io::Result<()> {
    let number = refusal.number();
    let nothing = if is_same { "nothing " } else { "" };
    println!(out; "refused {number}, {nothing}changed")
}

pub(crate) fn print_cursor(out: &impl Print, set: Result<View, BadText>) -> io::Result<()> {
    match set {
        Ok(view) => println!(out; "set{}", Shown(view)),
        Err(BadText) => println!(out; "refused 1"),
    }
}
