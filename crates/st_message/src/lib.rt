//! What servers and clients say to each other, what a server records, and why it ignores an event.
#![tactic(auto)]

mod change;
mod event;
mod here;
mod kept;
mod log;
mod made;
mod message;
mod reason;
mod step;

pub use change::{Change, Changes, Heard, HeardList};
pub use event::{Event, Outcome, Output, Outputs, Plan, Scope};
pub use here::Here;
pub use kept::{Asked, Backed, Completed, Held, KeptViews, Pended, Sealing, Share, Vote, Word};
pub use log::{Entries, Entry, Ran};
pub use made::{MadeSeal, MadeSeals};
pub use message::{Message, Proof, Proofs, ReportBody, Reports, SiteWord, SiteWords, ViewWords};
pub use reason::Reason;
pub use step::{Form, Out, Outs, Refused, Step};
