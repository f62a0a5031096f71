//! A journal: bodies of bytes, one after another in a file that a crash may cut short at any moment.
#![tactic(auto)]

mod blocks;
mod device;
mod error;
mod gate;
mod journal;

pub use blocks::Bodies;
pub use error::{JournalError, NotStarted};
pub use journal::Journal;
