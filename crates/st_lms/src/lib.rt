//! LMS over SHA-256 (RFC 8554, section 5): trees of one-time keys, and what they sign.
#![tactic(auto)]

mod check;
mod error;
mod kind;
mod laws;
mod nodes;
mod secret;
mod tree;

pub use check::{behind, lms_check, signature_length};
pub use error::LmsError;
pub use kind::LmsKind;
pub use laws::sealed_checks;
pub use secret::LmsSecret;
pub use tree::Tree;
