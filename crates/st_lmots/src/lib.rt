//! LM-OTS over SHA-256 (RFC 8554, section 4): signatures of one message by a leaf's own key.
#![tactic(auto)]

mod arrays;
mod chain;
mod check;
mod digits;
mod error;
mod hashing;
mod kind;
mod laws;
mod seal;

pub use arrays::joined_array;
pub use chain::place;
pub use check::{candidate, key_candidate, number_in_front};
pub use error::OtsError;
pub use kind::OtsKind;
pub use laws::sealed_gives_the_key;
pub use seal::{ots_key, ots_seal, put_signature};

#[cfg(test)]
mod tests;
