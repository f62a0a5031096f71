use crate::message::SiteWords;
use st_fields::{Bytes, Copied, WordsError};
use st_seal::Quorum;
use st_words::{Items, Statement, Update, Value};
use std::alloc::Global;

/// A statement that a server made, with the leaf that seals it.
#[derive(Drop)]
pub struct Sealing {
    pub leaf: u32,
    pub statement: Statement,
}

/// A value that stood in a view and local view, and the quorum that says so.
#[derive(Drop)]
pub struct Backed {
    pub view: u32,
    pub local: u32,
    pub value: Value,
    pub quorum: Quorum,
}

/// A server's kept share of a slot; the slot's table has the server's index.
#[derive(Drop)]
pub struct Share {
    pub statement: Statement,
    pub seal: Bytes,
}

/// A share that asks for a view.
#[derive(Drop)]
pub struct Vote {
    pub view: u32,
    pub seal: Bytes,
}

/// A site's certificate that asks for a view.
#[derive(Drop)]
pub struct Asked {
    pub view: u32,
    pub quorum: Quorum,
}

/// A union that is held.
#[derive(Drop)]
pub struct Held {
    /// Of a local union: the greatest view of its reports.
    pub greatest: u32,
    pub base: u32,
    pub items: Items,
    pub quorum: Quorum,
}

/// An Accept certificate that is kept; its table has the number and the site.
#[derive(Drop)]
pub struct Word {
    pub view: u32,
    pub value: Value,
    pub quorum: Quorum,
}

/// A client's update that waits for a number, with its seal.
#[derive(Drop)]
pub struct Pended {
    pub update: Update,
    pub seal: Bytes,
}

/// A certificate that this server completed.
#[derive(Drop)]
pub struct Completed {
    pub statement: Statement,
    pub quorum: Quorum,
}

/// What proves the present views: the local view's quorum, and the view's sites.
#[derive(Drop)]
pub struct KeptViews {
    pub local: Option<Quorum>,
    pub view: Option<SiteWords>,
}

impl Copied for Sealing {
    fn copy(&self, alloc: Global) -> Result<Sealing, WordsError> {
        Ok(Sealing {
            leaf: self.leaf,
            statement: self.statement.copy(alloc)?,
        })
    }
}

impl Copied for Backed {
    fn copy(&self, alloc: Global) -> Result<Backed, WordsError> {
        Ok(Backed {
            view: self.view,
            local: self.local,
            value: self.value.copy(alloc)?,
            quorum: self.quorum.copy(alloc)?,
        })
    }
}

impl Copied for Share {
    fn copy(&self, alloc: Global) -> Result<Share, WordsError> {
        Ok(Share {
            statement: self.statement.copy(alloc)?,
            seal: self.seal.copy(alloc)?,
        })
    }
}

impl Copied for Word {
    fn copy(&self, alloc: Global) -> Result<Word, WordsError> {
        Ok(Word {
            view: self.view,
            value: self.value.copy(alloc)?,
            quorum: self.quorum.copy(alloc)?,
        })
    }
}

impl Copied for Pended {
    fn copy(&self, alloc: Global) -> Result<Pended, WordsError> {
        Ok(Pended {
            update: self.update.copy(alloc)?,
            seal: self.seal.copy(alloc)?,
        })
    }
}

impl Copied for KeptViews {
    fn copy(&self, alloc: Global) -> Result<KeptViews, WordsError> {
        Ok(KeptViews {
            local: self.local.copy(alloc)?,
            view: self.view.copy(alloc)?,
        })
    }
}
