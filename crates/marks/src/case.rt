// One case, by its numbers.
use edit::Edit;
use select::{Sel, Selection};
use text::Row;
use trials::{Kind, position};

#[derive(Clone, Copy)]
pub(crate) struct Shift<'a> {
    pub(crate) edit: Edit,
    pub(crate) sel: Sel,
    pub(crate) text: &'a [u32],
    pub(crate) payload: &'a [u32],
    pub(crate) first: &'a [u32],
    pub(crate) second: &'a [u32],
}

#[derive(Clone, Copy)]
pub(crate) enum Case<'a> {
    Shift(Shift<'a>),
    Merge(&'a [u32]),
    Select(Selection, Row),
}

// The front of the numbers, of this length, and the others: none where they are too few.
fn part(numbers: &[u32], length: u32) -> Option<(&[u32], &[u32])> {
    numbers.split_at_checked(length as usize)
}

// An edit of any other number is one of the last kind.
fn edit_of(kind: u32, a: u32, b: u32, c: u32, d: u32) -> Edit {
    Kind::try_from(kind)
        .unwrap_or(Kind::DeleteBlockChunks)
        .edit(position(a, b), position(c, d))
}

impl<'a> Shift<'a> {
    fn of(numbers: &'a [u32]) -> Option<Shift<'a>> {
        let [
            kind,
            a,
            b,
            c,
            d,
            e,
            f,
            g,
            h,
            text,
            payload,
            first,
            second,
            rest @ ..,
        ] = numbers
        else {
            return None;
        };
        let (text, rest) = part(rest, *text)?;
        let (payload, rest) = part(rest, *payload)?;
        let (first, rest) = part(rest, *first)?;
        let (second, rest) = part(rest, *second)?;
        rest.is_empty().then_some(Shift {
            edit: edit_of(*kind, *a, *b, *c, *d),
            sel: Sel::new(position(*e, *f), position(*g, *h)),
            text,
            payload,
            first,
            second,
        })
    }
}

fn selection_of(kind: u32, a: u32, b: u32, c: u32, d: u32) -> Selection {
    let anchor = position(a, b);
    let head = position(c, d);
    match kind {
        0 => Selection::Char { anchor, head },
        1 => Selection::Line {
            anchor_row: anchor.row,
            head_row: head.row,
        },
        _ => Selection::Block { anchor, head },
    }
}

impl<'a> Case<'a> {
    pub(crate) fn of(numbers: &'a [u32]) -> Option<Case<'a>> {
        match numbers {
            [1, shift @ ..] => Shift::of(shift).map(Case::Shift),
            [2, sels @ ..] => Some(Case::Merge(sels)),
            [3, kind, a, b, c, d, is_extended, e, f, row] => {
                let selection = selection_of(*kind, *a, *b, *c, *d);
                let whole = match is_extended {
                    0 => selection,
                    _ => selection.extend_to(position(*e, *f)),
                };
                Some(Case::Select(whole, Row(*row)))
            }
            _ => None,
        }
    }
}
