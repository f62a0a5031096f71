//! Each law of definitions is called once, apart from the crates of laws: so these are proved once.
#![tactic(auto)]

#[cfg(test)]
mod agreement;
#[cfg(test)]
mod counts;
#[cfg(test)]
mod flat_laws;
#[cfg(test)]
mod flows;
#[cfg(test)]
mod frame_laws;
#[cfg(test)]
mod leaf_laws;
#[cfg(test)]
mod protocol;
#[cfg(test)]
mod ranges;
#[cfg(test)]
mod registers;
