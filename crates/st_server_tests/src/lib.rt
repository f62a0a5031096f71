//! Tests of a server's tables and parts, apart from the crates that they run: so these are proved once.
#![tactic(auto)]

#[cfg(test)]
mod assign;
#[cfg(test)]
mod order;
#[cfg(test)]
mod server;
#[cfg(test)]
mod shares;
#[cfg(test)]
mod state;
