use crate::ids::ClientId;
use st_fields::{Bytes, Copied, Same, WordsError};
use std::alloc::Global;

/// An operation that a client asks for: the client's update of this time.
#[derive(Drop)]
pub struct Update {
    pub client: ClientId,
    /// The client's own count of its updates, at least 1.
    pub time: u32,
    /// At most 1,024 bytes.
    pub op: Bytes,
}

/// What a number of the log is given: nothing, or one update.
#[derive(Drop)]
pub enum Value {
    Noop,
    Update(Update),
}

impl Copied for Update {
    fn copy(&self, alloc: Global) -> Result<Update, WordsError> {
        Ok(Update {
            client: self.client,
            time: self.time,
            op: self.op.copy(alloc)?,
        })
    }
}

impl Same for Update {
    fn same(&self, other: &Update) -> bool {
        self.client == other.client && self.time == other.time && self.op.same(&other.op)
    }
}

impl Copied for Value {
    fn copy(&self, alloc: Global) -> Result<Value, WordsError> {
        match self {
            Value::Noop => Ok(Value::Noop),
            Value::Update(update) => Ok(Value::Update(update.copy(alloc)?)),
        }
    }
}

impl Same for Value {
    fn same(&self, other: &Value) -> bool {
        match (self, other) {
            (Value::Noop, Value::Noop) => true,
            (Value::Update(a), Value::Update(b)) => a.same(b),
            _ => false,
        }
    }
}
