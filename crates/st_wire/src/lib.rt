//! Messages as bytes, both ways, and the seals that stand in them.
#![tactic(auto)]

mod backed;
mod body;
mod error;
mod kind;
mod layout;
mod limits;
mod message;
mod parts;
mod put_body;
mod put_parts;
mod report;
mod rising;
mod seal;
mod size;

pub use error::MessageError;
pub use kind::MessageKind;
pub use limits::{MOST_BYTES, MOST_SEAL};
pub use message::{decode, encode, no_proper_prefix, one_message, read_back, read_elsewhere};
pub use seal::{SealIn, SealsIn, pieces_are_the_spelling, seals_in, seals_stand};
