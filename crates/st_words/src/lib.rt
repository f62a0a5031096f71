//! The words of the protocol: ids, values, items, statements, and the deployment they belong to.
#![tactic(auto)]

mod codec;
mod deployment;
mod ids;
mod kind;
mod limits;
mod statement;
mod value;

pub use codec::{
    limits_above, no_proper_prefix, one_statement, put_core, put_items, put_update, put_value,
    read_core, read_items, read_report, read_statement, read_update, read_value, statement_bytes,
};
pub use deployment::{Deployment, LAST_NUMBER, MOST_VIEW, SealKind, ServiceKind, WINDOW};
pub use ids::{ClientId, LocalView, Number, ServerId, Servers, SiteId, View, Who};
pub use kind::StatementKind;
pub use limits::{ItemLimits, ReportBounds};
pub use st_fields::{Bytes, Copied, Same, Seq, WordsError};
pub use statement::{Item, Items, Statement, Statements};
pub use value::{Update, Value};
