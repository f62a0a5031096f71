//! Small tables by key: one entry a client, a server or a site (`Table`), or one entry a number of the
//! window (`Ring`). A copy of a table shares its entries.
#![tactic(auto)]

mod ring;
mod table;

pub use ring::Ring;
pub use table::Table;
