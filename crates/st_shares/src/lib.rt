//! What the parts of a server share: a slot's shares and whether a quorum of them is over one statement,
//! where a server stands, and the steps of which a part's answer is put together.
#![tactic(auto)]

mod counting;
mod here;
mod quorums;
mod same;
mod slot;
mod step;

pub use counting::{agreeing, complete, completes, is_seen_share};
pub use here::{majority, out_of_window, quorum, rep, servers, to_rep, to_site};
pub use quorums::completed;
pub use same::{same_statement, same_update, same_value, says};
pub use slot::{
    Slot, accept_row, entry_of, made_accept, made_prepare, made_proposal, prepare_row, proposal_row,
};
pub use step::{
    certifies, completing, idle, keeping, keeping_share, making, only, putting, recording, then,
};
