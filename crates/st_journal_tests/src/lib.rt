//! Tests of disks and journals, apart from the crates that they run: so these are proved once.
#![tactic(auto)]

#[cfg(test)]
mod disk;
#[cfg(test)]
mod journal;
