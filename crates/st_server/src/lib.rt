//! One server: what it is to do at an event, by its records and by what it heard.
#![tactic(auto)]

mod carry;
mod draft;
mod execution;
mod parts;
mod server;
mod standing;

pub use draft::Draft;
pub use parts::answer_to;
pub use server::{Planned, Server};
