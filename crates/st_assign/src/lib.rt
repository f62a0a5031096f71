//! The part of a server that gives numbers their values: clients' updates, the representative's
//! assignments, the shares of Prepares and Proposals, and the fill.
#![tactic(auto)]

mod above;
mod assign;
mod filled;
mod prepare;
mod prepares;
mod proposal_share;
mod update;
mod waiting;

pub use assign::on_assign;
pub use filled::fill;
pub use prepare::on_prepare;
pub use proposal_share::on_proposal_share;
pub use update::on_update;
