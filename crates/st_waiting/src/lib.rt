//! The undelivered pairs of a world: messages, by their numbers, and the destinations that each wasn't
//! delivered to yet, in the order of sending. Over many calls the oldest is taken in constant time, and all
//! to one destination are lost in constant time: `pop` walks past what was lost, each place once. One pair
//! is found among those of its message.
#![tactic(auto)]

mod marks;
mod slot;
mod waiting;

pub use slot::Pair;
pub use waiting::Waiting;
