// One call of `apply_edit_in` or `set_cursor` on arrays that a trial's numbers fill.
use crate::show::{Done, print_cursor, print_refused};
use crate::trial::{Call, ITEMS, ROOM, Trial};
use edit::Edit;
use std::io;
use text::Position;
use thin::apply_edit_in;
use view::set_cursor;

// No scalar, and past the limit of numbers: what stands where nothing is lent, and in the slices that are lent for the inverse.
const FILL: u32 = 0xA5A5A5A5;

// A prime below 2^32.
const MODULUS: u64 = 4_294_967_291;

// All that is lent to be written.
#[derive(Drop)]
pub(crate) struct Lent {
    pub(crate) text: [u32; ROOM],
    pub(crate) payload: [u32; ROOM],
    pub(crate) first: [u32; ITEMS],
    pub(crate) second: [u32; ITEMS],
}

// The sum goes on from `start`, so that several slices have one.
fn checksum_from(start: u32, items: &[u32]) -> u32 {
    items.iter().fold(start, |sum, x| {
        ((u64::from(sum) * 65_599 + u64::from(*x)) % MODULUS) as u32
    })
}

impl Lent {
    fn blank() -> Lent {
        Lent {
            text: [FILL; ROOM],
            payload: [FILL; ROOM],
            first: [FILL; ITEMS],
            second: [FILL; ITEMS],
        }
    }

    // Slice by slice: over a `chain` of the four it takes nearly three times as many instructions.
    fn checksum(&self) -> u32 {
        let lent: [&[u32]; 4] = [&self.text, &self.payload, &self.first, &self.second];
        lent.iter().fold(1, |sum, items| checksum_from(sum, items))
    }
}

fn try_edit(out: &impl Print, edit: Edit, trial: Trial) -> io::Result<()> {
    let mut payload = [FILL; ROOM];
    let mut first = [FILL; ITEMS];
    let mut second = [FILL; ITEMS];
    let payload = &mut payload[..trial.payload.length.min(ROOM)];
    let first = &mut first[..trial.first.length.min(ITEMS)];
    let second = &mut second[..trial.second.length.min(ITEMS)];
    trial.payload.fill(payload);
    trial.first.fill(first);
    trial.second.fill(second);
    call(out, edit, trial, payload, first, second)
}

fn call(
    out: &impl Print,
    edit: Edit,
    trial: Trial,
    payload: &[u32],
    first: &[u32],
    second: &[u32],
) -> io::Result<()> {
    let mut lent = Lent::blank();
    let mut view = trial.view;
    let [payload_room, first_room, second_room] = trial.rooms;
    let end = trial.text.length.min(ROOM);
    trial.text.fill(&mut lent.text[..end]);
    let before = lent.checksum();
    let answer = apply_edit_in(
        &mut lent.text[..end],
        &mut view,
        edit,
        payload,
        first,
        second,
        &mut lent.payload[..(payload_room as usize).min(ROOM)],
        &mut lent.first[..(first_room as usize).min(ITEMS)],
        &mut lent.second[..(second_room as usize).min(ITEMS)],
    );
    let sum = lent.checksum();
    match answer {
        Err(refusal) => print_refused(out, refusal, before == sum && trial.view == view),
        Ok(applied) => println!(out;
            "{}",
            Done {
                view,
                applied,
                lent: &lent,
                sum
            }
        ),
    }
}

fn try_cursor(out: &impl Print, at: Position, trial: Trial) -> io::Result<()> {
    let mut text = [FILL; ROOM];
    let text = &mut text[..trial.text.length.min(ROOM)];
    trial.text.fill(text);
    print_cursor(out, set_cursor(text, trial.view, at))
}

pub(crate) fn run(out: &impl Print, trial: Trial) -> io::Result<()> {
    match trial.call {
        Call::ApplyEdit(edit) => try_edit(out, edit, trial),
        Call::SetCursor(at) => try_cursor(out, at, trial),
    }
}
