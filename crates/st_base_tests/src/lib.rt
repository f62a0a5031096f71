//! Tests of statements, seals, texts and the edge, apart from the crates that they run: so these are proved once.
#![tactic(auto)]

#[cfg(test)]
mod hss;
#[cfg(test)]
mod hss_seal;
#[cfg(test)]
mod io;
#[cfg(test)]
mod lms;
#[cfg(test)]
mod seal;
#[cfg(test)]
mod tables;
#[cfg(test)]
mod texts;
#[cfg(test)]
mod words;
