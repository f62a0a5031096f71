use st_fields::{Bytes, Copied, Same, Seq, WordsError};
use st_words::Value;
use std::alloc::Global;

/// What running a number's value gave.
#[derive(Drop)]
pub enum Ran {
    /// The service answered the update with this result.
    Ran { result: Bytes },
    /// The update's time isn't above its client's last, which is shown.
    Skipped { last: u32 },
    /// A no-op runs nothing.
    Nothing,
}

/// One number of an executed log: its value, and what running it gave.
#[derive(Drop)]
pub struct Entry {
    pub value: Value,
    pub ran: Ran,
}

/// An executed log, from number 1.
pub type Entries = Seq<Entry>;

impl Copied for Ran {
    fn copy(&self, alloc: Global) -> Result<Ran, WordsError> {
        match self {
            Ran::Ran { result } => Ok(Ran::Ran {
                result: result.copy(alloc)?,
            }),
            Ran::Skipped { last } => Ok(Ran::Skipped { last: *last }),
            Ran::Nothing => Ok(Ran::Nothing),
        }
    }
}

impl Same for Ran {
    fn same(&self, other: &Ran) -> bool {
        match (self, other) {
            (Ran::Ran { result: a }, Ran::Ran { result: b }) => a.same(b),
            (Ran::Skipped { last: a }, Ran::Skipped { last: b }) => *a == *b,
            (Ran::Nothing, Ran::Nothing) => true,
            _ => false,
        }
    }
}

impl Copied for Entry {
    fn copy(&self, alloc: Global) -> Result<Entry, WordsError> {
        Ok(Entry {
            value: self.value.copy(alloc)?,
            ran: self.ran.copy(alloc)?,
        })
    }
}

impl Same for Entry {
    fn same(&self, other: &Entry) -> bool {
        self.value.same(&other.value) && self.ran.same(&other.ran)
    }
}
