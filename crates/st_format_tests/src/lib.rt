//! Tests of messages, their bytes, inputs and reports, apart from the crates that they run: so these are proved once.
#![tactic(auto)]

#[cfg(test)]
mod config;
#[cfg(test)]
mod input;
#[cfg(test)]
mod message;
#[cfg(test)]
mod report;
#[cfg(test)]
mod schedule;
#[cfg(test)]
mod wire;
