use crate::change::{Changes, HeardList};
use crate::message::Message;
use crate::reason::Reason;
use st_fields::{Bytes, Copied, Seq, WordsError};
use st_words::{ClientId, ServerId, SiteId};
use std::alloc::Global;

/// To whom something is sent.
#[derive(Clone, Copy, Debug, PartialEq, Eq)]
pub enum Scope {
    All,
    Site(SiteId),
    One(ServerId),
    Client(ClientId),
}

/// What happens to a server.
#[derive(Drop)]
pub enum Event {
    /// These bytes reach it.
    Deliver(Bytes),
    LocalTimeout,
    GlobalTimeout,
    Tick,
}

/// Whether an event did something.
#[derive(Clone, Copy, PartialEq, Eq)]
pub enum Outcome {
    Did,
    Ignored(Reason),
}

/// A message that a server hands out.
#[derive(Drop)]
pub struct Output {
    pub message: Message,
    pub to: Scope,
    /// The leaf of this server's own seal in the message, if it has one.
    pub leaf: Option<u32>,
}

/// What a server hands out, in order.
pub type Outputs = Seq<Output>;

/// What a server is to do at an event: record the changes, then keep what was heard, then hand out the
/// outputs. An ignored event has none of these.
#[derive(Drop)]
pub struct Plan {
    pub changes: Changes,
    pub heard: HeardList,
    pub outputs: Outputs,
    pub outcome: Outcome,
}

impl Copied for Output {
    fn copy(&self, alloc: Global) -> Result<Output, WordsError> {
        Ok(Output {
            message: self.message.copy(alloc)?,
            to: self.to,
            leaf: self.leaf,
        })
    }
}
