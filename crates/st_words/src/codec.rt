//! The bytes of the protocol's words, both ways.

mod fields;
mod item;
mod put_fields;
mod report;
mod statement;
mod value;

pub use item::{limits_above, put_items, read_items};
pub use report::read_report;
pub use statement::{
    no_proper_prefix, one_statement, put_core, read_core, read_statement, statement_bytes,
};
pub use value::{put_update, put_value, read_update, read_value};
