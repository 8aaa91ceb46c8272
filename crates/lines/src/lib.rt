// How a program takes its input, all of its text and the hexadecimal numbers of a line, and where it prints.
#![tactic(auto)]

mod input;
mod numbers;
mod output;

pub use input::{is_passed_over, read_text};
pub use numbers::read_numbers;
pub use output::PassingOver;
