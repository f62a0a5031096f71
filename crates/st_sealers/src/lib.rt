//! The sealers of a deployment's clients, kept from seal to seal.
#![tactic(auto)]

mod sealers;
#[cfg(test)]
mod tests;

pub use sealers::ClientSealers;
