//! One server: what it is to do at an event, by its records and by what it heard.
#![tactic(auto)]

mod live;

pub use live::Live;
