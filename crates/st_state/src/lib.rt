//! What a server keeps of its state for its duties, short and bounded: the slots of the window, what is
//! in hand, the pending updates, and its own certificates. Each is seen as the answers that it gives to
//! the questions of the duties, and each of its writes is one step of those answers.
#![tactic(auto)]

mod clients;
mod forced;
mod hand;
mod own;
mod pending;
mod rings;
mod slots;

pub use clients::{Clients, LastRun};
pub use forced::Forced;
pub use hand::{Hand, Named, Words};
pub use own::Own;
pub use pending::Pending;
pub use slots::Slots;
