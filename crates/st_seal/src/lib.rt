//! Seals: what a party gives for a statement, and how a site speaks by a quorum of them.
#![tactic(auto)]

mod certificate;
mod collector;
mod keyed;
mod quorum;
mod sealer;
mod voice;

pub use certificate::quorum_holds;
pub use collector::{Added, Collector};
pub use keyed::{KeyedSealer, KeyedSeals};
pub use quorum::{Quorum, Quorums, Signed};
pub use sealer::{Check, SealError, Sealer};
pub use voice::{SiteVoice, SoloVoice, Voice};
