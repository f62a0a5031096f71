//! What of an input is taken today: the deployment that its header describes, and which event lines.
#![tactic(auto)]

mod built;
mod header;
mod parts;

pub use built::is_built;
pub use header::{ConfigError, read_header};
