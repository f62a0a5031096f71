ghost use Rattle.std.specs.Prelude.{◌≡◌};
ghost use Rattle.st_message.specs.Refusals.{from_words};

use crate::change::{Changes, HeardList};
use crate::event::Scope;
use crate::message::{Message, Proof};
use crate::reason::Reason;
use st_fields::{Bytes, Copied, Seq, WordsError};
use st_seal::Quorums;
use st_words::Statement;
use std::alloc::Global;

/// In which message a statement goes out.
#[derive(Drop)]
pub enum Form {
    Share,
    /// With the client's seal, or no bytes.
    Assign {
        client_seal: Bytes,
    },
    /// With a certificate for each item, and the order proof of the base.
    Report {
        quorums: Quorums,
        base: Option<Proof>,
    },
    Reply,
}

/// What goes out: a statement that is sealed with its own leaf, or a message without a seal of this
/// server's own.
#[derive(Drop)]
pub enum Out {
    Make {
        statement: Statement,
        form: Form,
        to: Scope,
    },
    Send {
        message: Message,
        to: Scope,
    },
}

/// What goes out, in order.
pub type Outs = Seq<Out>;

/// What one part of a server does at an event: it records the changes, then keeps what was heard, then
/// this goes out.
#[derive(Drop)]
pub struct Step {
    pub changes: Changes,
    pub heard: HeardList,
    pub out: Outs,
}

impl Copied for Form {
    fn copy(&self, alloc: Global) -> Result<Form, WordsError> {
        match self {
            Form::Share => Ok(Form::Share),
            Form::Assign { client_seal } => Ok(Form::Assign {
                client_seal: client_seal.copy(alloc)?,
            }),
            Form::Report { quorums, base } => Ok(Form::Report {
                quorums: quorums.copy(alloc)?,
                base: base.copy(alloc)?,
            }),
            Form::Reply => Ok(Form::Reply),
        }
    }
}

impl Copied for Out {
    fn copy(&self, alloc: Global) -> Result<Out, WordsError> {
        match self {
            Out::Make {
                statement,
                form,
                to,
            } => Ok(Out::Make {
                statement: statement.copy(alloc)?,
                form: form.copy(alloc)?,
                to: *to,
            }),
            Out::Send { message, to } => Ok(Out::Send {
                message: message.copy(alloc)?,
                to: *to,
            }),
        }
    }
}

/// Why a part does nothing.
#[derive(Clone, Copy, PartialEq, Eq)]
pub enum Refused {
    /// The event is ignored for this reason.
    Ignored(Reason),
    /// Memory was refused.
    OutOfMemory,
}

/// A refusal by the lower crates' calls.
impl From<WordsError> for Refused {
    ghost from_gives = { λ d e. e ≡ from_words d };

    fn from(error: WordsError) -> Refused {
        match error {
            WordsError::Malformed { place } => Refused::Ignored(Reason::Malformed { place }),
            WordsError::OutOfMemory => Refused::OutOfMemory,
        }
    }
}
