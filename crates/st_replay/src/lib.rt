//! An input replayed: its event lines taken one by one in one world, and that world's report.
#![tactic(auto)]

mod clients;
mod ends;
mod error;
mod lines;
mod replayed;
mod rows;
mod server;

pub use ends::replays_end_as_their_worlds;
pub use error::ReplayError;
pub use lines::{Replay, replay_lines};
pub use replayed::replay;
