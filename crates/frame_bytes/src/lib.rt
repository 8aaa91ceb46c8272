// The bytes of frames, to slices that have room for them: an edit with its lists, and what it is made of.
#![tactic(auto)]

mod edits;
mod lists;
mod puts;

pub use edits::put_edit;
pub use puts::put_position;
