//! HSS over SHA-256 (RFC 8554, section 6): keys of one or two levels of trees.
#![tactic(auto)]

mod check;
mod error;
mod key;
mod laws;
mod second;
mod secret;

pub use check::hss_check;
pub use error::HssError;
pub use key::HssKey;
pub use laws::{hss_seal_lengths, hss_sealed_checks};
pub use secret::{HssSecret, Levels};
