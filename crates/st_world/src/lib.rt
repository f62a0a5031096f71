//! A whole deployment in memory: its server, its clients, what was sent, and what isn't delivered yet.
#![tactic(auto)]

mod answers;
mod customer;
mod deliver;
mod error;
mod flow;
mod forged;
mod new;
mod send;
mod serve;
mod step;
mod submit;
mod world;

pub use error::WorldError;
pub use flow::Flow;
pub use world::{ServerState, World};
