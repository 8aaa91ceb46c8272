// Script frames: what the bytes of a line are by their form, before their UTF-8 is read.
#![tactic(auto)]

mod numbers;

use edit::Edit;
pub use numbers::{number_at, position_at};
use select::Sel;

// The most bytes that a line holds.
pub const BYTE_LIMIT: usize = 18_432;

// A line of at most so many digits, as nearly all are, is read into small arrays: clearing large ones takes longer than all the rest.
pub const SHORT_LINE: usize = 512;

// The most bytes that a short line holds.
pub const SHORT_BYTES: usize = 256;

// What a line is, with its numbers. A malformed line is one of the kinds, and no error: a script counts it, prints for it and goes on.
#[derive(Clone, Copy)]
pub enum Head {
    Malformed,
    Text,
    Mark(Sel),
    Edit(Edit),
}
