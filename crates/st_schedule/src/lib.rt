//! The schedule: one event a line, and what each event came to.
#![tactic(auto)]

mod done;
mod limits;
mod line;
mod names;
mod read;
mod text;

pub use done::{Done, Dones};
pub use limits::{
    EMPTY_JOURNAL, MOST_CALL, MOST_FLOW, MOST_JOURNAL, MOST_MESSAGES, MOST_OPERATION, MOST_SENT,
};
pub use line::{Dest, Line, Lines};
pub use read::{ScheduleError, read_line};
pub use text::{line_text, lines_are_read_back};
