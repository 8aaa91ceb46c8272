// Records of numbers for callers that know no enums: an edit, and each answer with the number of its refusal, or 0. The interface to C needs
// them: what goes by value there has no enum, so a kind is a number and what may be missing has a flag.
#![tactic(auto)]

mod answers;
mod edits;

pub use answers::{
    counted, found_at, found_of, found_sel, line_read, no_bounds, no_cover, no_line, no_sel,
    not_changed, not_counted, not_found, told_answer, told_bounds, told_clamped, told_count,
    told_decoded, told_encoded, told_ends, told_fit, told_span,
};
use edit::View;
pub use edits::{meant_edit, meant_selection, told_edit};
use select::Sel;
use text::Position;

// An edit's numbers, its kind among them, as C takes them. What the kind does not use is 0, or not read.
#[repr(C)]
#[derive(Clone, Copy)]
pub struct Numbers {
    pub kind: u32,
    pub start: Position,
    pub end: Position,
    pub count: u32,
}

// How many elements stand at the front of the output.
#[repr(C)]
#[derive(Clone, Copy)]
pub struct Count {
    pub refusal: u32,
    pub offset: usize,
    pub count: usize,
}

// The view after an edit, the edit that takes it back, and how much of its payload and lists was written.
#[repr(C)]
#[derive(Clone, Copy)]
pub struct Change {
    pub refusal: u32,
    pub offset: usize,
    pub view: View,
    pub inverse: Numbers,
    pub payload: usize,
    pub first: usize,
    pub second: usize,
}

// A position, where there is one: a flag, as C takes it.
#[repr(C)]
#[derive(Clone, Copy)]
pub struct Found {
    pub refusal: u32,
    pub found: bool,
    pub at: Position,
}

// A selection, where there is one: a flag, as C takes it.
#[repr(C)]
#[derive(Clone, Copy)]
pub struct SelFound {
    pub refusal: u32,
    pub found: bool,
    pub sel: Sel,
}

// The columns of a row that are covered, and flags, as C takes them.
#[repr(C)]
#[derive(Clone, Copy)]
pub struct Cover {
    pub refusal: u32,
    pub covered: bool,
    pub open: bool,
    pub lo: u32,
    pub hi: u32,
}

// The first and the last row that are covered.
#[repr(C)]
#[derive(Clone, Copy)]
pub struct Bounds {
    pub refusal: u32,
    pub top: u32,
    pub bottom: u32,
}

// The view after a call that edits nothing.
#[repr(C)]
#[derive(Clone, Copy)]
pub struct Viewed {
    pub refusal: u32,
    pub view: View,
}

// The edit that a line is, and how much of its payload and lists was written.
#[repr(C)]
#[derive(Clone, Copy)]
pub struct EditLine {
    pub refusal: u32,
    pub offset: usize,
    pub edit: Numbers,
    pub payload: usize,
    pub first: usize,
    pub second: usize,
}

#[repr(C)]
#[derive(Clone, Copy)]
pub struct Said {
    pub refusal: u32,
    pub yes: bool,
}
