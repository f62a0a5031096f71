//! Which seals correct parties handed out, looked up by the party and the statement.
#![tactic(auto)]

mod key;
mod made;
mod widths;

pub use made::Made;
