//! The report of a run: its rows as plain data, and their exact text.
#![tactic(auto)]

mod rows;
mod text;

pub use rows::{
    ClientRow, ClientRows, DoneRow, DoneRows, DoneWords, Header, LogRow, LogRows, Rows, ServerRow,
    ServerRows, StateWord,
};
pub use text::{ReportError, report_text};
