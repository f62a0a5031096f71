use crate::message::{Message, Proof, SiteWords};
use st_fields::{Copied, Seq, WordsError};
use st_seal::Quorum;
use st_words::{LocalView, Number, Statement, View};
use std::alloc::Global;

/// One change of a server's durable state.
#[derive(Drop)]
pub enum Change {
    /// It entered the local view, which this quorum of its site asked for.
    EnterLocal {
        local: LocalView,
        quorum: Quorum,
    },
    /// It entered the view, which these sites asked for.
    EnterGlobal {
        view: View,
        sites: SiteWords,
    },
    /// It sealed the statement with the leaf.
    Made {
        leaf: u32,
        statement: Statement,
    },
    /// This quorum of its site prepared the statement.
    Prepared {
        statement: Statement,
        quorum: Quorum,
    },
    /// The leader site proposed the statement.
    Accepted {
        statement: Statement,
        quorum: Quorum,
    },
    /// It holds this union of a site.
    Union {
        statement: Statement,
        quorum: Quorum,
    },
    /// It executed the number.
    Executed {
        number: Number,
        proof: Proof,
    },
}

/// The changes of one event, in order.
pub type Changes = Seq<Change>;

/// What a server keeps of what it heard, until it restarts.
#[derive(Drop)]
pub struct Heard {
    /// Whether the server itself sent it: a report that it made or a certificate that it completed.
    pub own: bool,
    pub message: Message,
}

/// What was heard, in order.
pub type HeardList = Seq<Heard>;

impl Copied for Change {
    fn copy(&self, alloc: Global) -> Result<Change, WordsError> {
        match self {
            Change::EnterLocal { local, quorum } => Ok(Change::EnterLocal {
                local: *local,
                quorum: quorum.copy(alloc)?,
            }),
            Change::EnterGlobal { view, sites } => Ok(Change::EnterGlobal {
                view: *view,
                sites: sites.copy(alloc)?,
            }),
            Change::Made { leaf, statement } => Ok(Change::Made {
                leaf: *leaf,
                statement: statement.copy(alloc)?,
            }),
            Change::Prepared { statement, quorum } => Ok(Change::Prepared {
                statement: statement.copy(alloc)?,
                quorum: quorum.copy(alloc)?,
            }),
            Change::Accepted { statement, quorum } => Ok(Change::Accepted {
                statement: statement.copy(alloc)?,
                quorum: quorum.copy(alloc)?,
            }),
            Change::Union { statement, quorum } => Ok(Change::Union {
                statement: statement.copy(alloc)?,
                quorum: quorum.copy(alloc)?,
            }),
            Change::Executed { number, proof } => Ok(Change::Executed {
                number: *number,
                proof: proof.copy(alloc)?,
            }),
        }
    }
}

impl Copied for Heard {
    fn copy(&self, alloc: Global) -> Result<Heard, WordsError> {
        Ok(Heard {
            own: self.own,
            message: self.message.copy(alloc)?,
        })
    }
}
