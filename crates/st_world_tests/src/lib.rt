//! Tests of a world and of what it is made of, apart from the crates that they run: so these are proved once.
#![tactic(auto)]

#[cfg(test)]
mod client;
#[cfg(test)]
mod made;
#[cfg(test)]
mod reading;
#[cfg(test)]
mod waiting;
#[cfg(test)]
mod world;
