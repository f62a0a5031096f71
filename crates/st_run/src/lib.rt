//! The program as a call: its words and its input to a status and a text.
#![tactic(auto)]

mod answer;
mod example;
mod program;
mod status;

pub use answer::Answer;
pub use example::a_small_world;
pub use program::run;
pub use status::Status;

#[cfg(test)]
mod tests;
