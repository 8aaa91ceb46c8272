// A script between two lines, and its lines that are no edits.
#![tactic(auto)]

mod keeping;
mod loads;
mod refusing;

use edit::View;
pub use keeping::keep_mark;
pub use loads::step_text;
use place::Place;
pub use refusing::refuse;

// What a script has between two lines, beside the slices of its text and of its marks.
#[derive(Clone, Copy)]
pub struct Script {
    pub view: View,
    pub place: Place,
}

// The script after a line, and how much the line printed.
#[derive(Clone, Copy)]
pub struct Progress {
    pub script: Script,
    pub printed: usize,
}
