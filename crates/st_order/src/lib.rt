//! The part of a server that orders numbers: Accept shares, the certificates of Proposals and Accepts,
//! and what is in hand.
#![tactic(auto)]

mod accept;
mod accept_share;
mod in_hand;
mod proposal;
mod words;

pub use accept::on_accept;
pub use accept_share::on_accept_share;
pub use in_hand::next_ordered;
pub use proposal::on_proposal;
