//! The flat world of the protocol: members with write-once registers, and the law that they give each
//! number one value. It is used with sites in views, and with servers of a site in local views.
#![tactic(auto)]

mod error;
mod flat;
mod laws;
mod ordered;
mod registers;
mod slot;

pub use error::FlatError;
pub use flat::Flat;
pub use laws::{advances, one_value_per_number};
