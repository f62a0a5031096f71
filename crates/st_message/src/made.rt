use st_fields::{Copied, Seq, WordsError};
use st_words::{Statement, Who};
use std::alloc::Global;

/// That a correct party handed out its seal over the statement, with this leaf.
#[derive(Drop)]
pub struct MadeSeal {
    pub who: Who,
    pub leaf: u32,
    pub statement: Statement,
}

/// The seals that were handed out, each once, where it was first handed out.
pub type MadeSeals = Seq<MadeSeal>;

impl Copied for MadeSeal {
    fn copy(&self, alloc: Global) -> Result<MadeSeal, WordsError> {
        Ok(MadeSeal {
            who: self.who,
            leaf: self.leaf,
            statement: self.statement.copy(alloc)?,
        })
    }
}
