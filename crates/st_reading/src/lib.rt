//! What bytes are for a deployment: a message with which nothing is wrong, or the reason why it is ignored.
#![tactic(auto)]

mod known;
mod laws;
mod read;
mod seals;

pub use known::knows;
pub use laws::{read_messages_are_spelled, seals_that_stand_are_held, sent_messages_are_read};
pub use read::{read_checked, read_known};
pub use seals::first_bad_seal;
