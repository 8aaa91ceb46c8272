// A trial by its numbers.
use edit::{Edit, View};
use lines::read_numbers;
use text::{LF, Position};
use trials::{Kind, position};

const NUMBERS: usize = 22;

// The lengths of the arrays for characters and for list items: past every limit, so that one too many can be lent.
pub(crate) const ROOM: usize = 16_400;

pub(crate) const ITEMS: usize = 300;

// What stands in so many items: each period-th one is `other`, none if the period is 0.
#[derive(Clone, Copy)]
pub(crate) struct Filling {
    pub(crate) length: usize,
    value: u32,
    period: usize,
    other: u32,
}

impl Filling {
    fn item(&self, i: usize) -> u32 {
        if self.period != 0 && i % self.period == self.period - 1 {
            self.other
        } else {
            self.value
        }
    }

    pub(crate) fn fill(&self, items: &mut [u32]) {
        for (i, x) in items.iter_mut().enumerate() {
            *x = self.item(i);
        }
    }
}

// What is called.
#[derive(Clone, Copy)]
pub(crate) enum Call {
    ApplyEdit(Edit),
    SetCursor(Position),
}

// The rooms are how long the slices for the inverse's payload and lists are.
#[derive(Clone, Copy)]
pub(crate) struct Trial {
    pub(crate) call: Call,
    pub(crate) view: View,
    pub(crate) text: Filling,
    pub(crate) payload: Filling,
    pub(crate) first: Filling,
    pub(crate) second: Filling,
    pub(crate) rooms: [u32; 3],
}

fn call_of(kind: u32, start: Position, end: Position) -> Option<Call> {
    match kind {
        11 => Some(Call::SetCursor(start)),
        _ => Some(Call::ApplyEdit(Kind::try_from(kind).ok()?.edit(start, end))),
    }
}

fn characters(length: u32, value: u32, period: u32) -> Filling {
    Filling {
        length: length as usize,
        value,
        period: period as usize,
        other: LF,
    }
}

// A list whose last item is another.
fn list(length: u32, value: u32, last: u32) -> Filling {
    let length = (length as usize).min(ITEMS);
    Filling {
        length,
        value,
        period: length,
        other: last,
    }
}

// The cursor handed in stands outside every text, which is no refusal.
fn view_of(used: u32, high: u32, low: u32) -> View {
    View {
        used: used as usize,
        cursor: position(u32::MAX, u32::MAX),
        changes: u64::from(high) * 0x1_0000_0000 + u64::from(low),
    }
}

impl Trial {
    // None where the line has anything but up to so many numbers, or no call's kind.
    pub(crate) fn read(line: &[u8]) -> Option<Trial> {
        let mut numbers = [0; NUMBERS];
        read_numbers(line, &mut numbers)?;
        Trial::of(numbers)
    }

    fn of(numbers: [u32; NUMBERS]) -> Option<Trial> {
        let [
            kind,
            length,
            used,
            value,
            period,
            row,
            col,
            end_row,
            end_col,
            payload_length,
            payload_value,
            first_length,
            first_value,
            first_last,
            second_length,
            second_value,
            second_last,
            payload,
            first,
            second,
            high,
            low,
        ] = numbers;
        Some(Trial {
            call: call_of(kind, position(row, col), position(end_row, end_col))?,
            view: view_of(used, high, low),
            text: characters(length, value, period),
            payload: characters(payload_length, payload_value, 0),
            first: list(first_length, first_value, first_last),
            second: list(second_length, second_value, second_last),
            rooms: [payload, first, second],
        })
    }
}
