//! A party's seal over a statement: over the statement's bytes, of whatever kind it is.
#![tactic(auto)]

mod laws;
mod ranges;
mod sealing;
#[cfg(test)]
mod tests;

pub use laws::sealed_as_spelled;
pub use sealing::seal_statement;
