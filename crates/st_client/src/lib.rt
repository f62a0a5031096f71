//! One client of a deployment: it asks for its updates, keeps the Replies to the last one, the first of
//! each server, and takes what f+1 servers of one site agree on as its result.
#![tactic(auto)]

mod client;
mod laws;
mod replies;

pub use client::Client;
pub use laws::{replies_in_a_world, submissions_in_a_world};
pub use replies::Answer;
