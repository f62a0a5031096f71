//! The seals of a deployment, of both kinds: keyed ones, and those of RFC 8554's HSS keys.
#![tactic(auto)]

mod deployment;
mod hss;
mod laws;
mod party;
mod scheme;

pub use deployment::{DeploymentSeals, PartySealer, is_choice};
pub use hss::{HssSealer, HssSeals};
pub use laws::{no_empty_seal_checks, what_parties_seal_checks};
