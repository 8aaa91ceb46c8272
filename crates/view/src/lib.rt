// Calls on a view that edit nothing.
#![tactic(auto)]

mod cursor;
mod undo;

pub use cursor::{clamp_position, set_cursor};
pub use undo::undoable;
