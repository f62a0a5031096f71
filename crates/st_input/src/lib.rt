//! A whole input: its deployment, and its event lines with their numbers.
#![tactic(auto)]

mod events;
mod fault;
mod first;
mod input;
mod limits;
mod parted;

pub use fault::{InputError, InputFault};
pub use input::{Input, InputLine, InputLines, read_input};
pub use limits::{LONGEST_LINE, MOST_INPUT, MOST_LINES};
