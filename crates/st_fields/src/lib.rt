//! What every format and every state of Steward is built of: a list type that contracts see as the
//! list of its elements, copies and exact equality, and the readers and writers of fields.
#![tactic(auto)]

mod copied;
mod each;
mod error;
mod kind;
mod reading;
mod same;
mod seq;
mod shared;
mod writing;

pub use copied::Copied;
pub use each::{ReadsEach, Spelled, put_counted, put_list, read_counted, read_list};
pub use error::{FieldError, WordsError};
pub use kind::{Numbered, read_kind};
pub use reading::{
    read_above, read_byte, read_byte_in, read_bytes, read_mark, read_positive, read_text, read_u16,
    read_u16_in, read_u32, read_u32_in, read_u64, read_whole,
};
pub use same::Same;
pub use seq::{Bytes, Seq};
pub use shared::Shared;
pub use writing::{put_byte, put_bytes, put_text, put_u16, put_u32, put_u64};

#[cfg(test)]
mod tests;
