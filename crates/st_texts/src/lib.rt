//! The words of texts: numbers in decimal, bytes in hexadecimal, and what stands before an end or after a front.
#![tactic(auto)]

mod hexadecimal;
mod number;
mod parts;

pub use hexadecimal::{bytes_have_a_text, put_hex, read_hex};
pub use number::{numbers_are_their_digits, read_number};
pub use parts::{after_front, before_end};
