use st_fields::{Bytes, Copied, Seq, WordsError};
use st_message::Outcome;
use std::alloc::Global;

/// What an event line came to.
#[derive(Drop)]
pub enum Done {
    /// The message of this number was handed out.
    Sent(u32),
    /// The client has no seal left: so many are used.
    SealsSpent(u32),
    /// The server or client took the event.
    Outcome(Outcome),
    /// The server stands stopped.
    Stopped,
    /// The server's journal is full.
    Full,
    /// The server is faulty: it runs no code.
    Faulty,
    /// So many messages were delivered, and of those events so many did something, or were ignored.
    Flowed { pairs: u32, did: u32, ignored: u32 },
    /// So many undelivered messages were lost.
    Dropped(u32),
    /// The server's stop is set.
    Set,
    /// The server was started again.
    Running,
    /// The bytes of a message.
    Shown(Bytes),
}

/// What the event lines came to, in order.
pub type Dones = Seq<Done>;

impl Copied for Done {
    fn copy(&self, alloc: Global) -> Result<Done, WordsError> {
        match self {
            Done::Sent(message) => Ok(Done::Sent(*message)),
            Done::SealsSpent(used) => Ok(Done::SealsSpent(*used)),
            Done::Outcome(outcome) => Ok(Done::Outcome(*outcome)),
            Done::Stopped => Ok(Done::Stopped),
            Done::Full => Ok(Done::Full),
            Done::Faulty => Ok(Done::Faulty),
            Done::Flowed {
                pairs,
                did,
                ignored,
            } => Ok(Done::Flowed {
                pairs: *pairs,
                did: *did,
                ignored: *ignored,
            }),
            Done::Dropped(pairs) => Ok(Done::Dropped(*pairs)),
            Done::Set => Ok(Done::Set),
            Done::Running => Ok(Done::Running),
            Done::Shown(bytes) => Ok(Done::Shown(bytes.copy(alloc)?)),
        }
    }
}
