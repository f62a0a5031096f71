ghost use Rattle.std.specs.Prelude.{◌≡◌};
ghost use Rattle.st_wire.specs.declared.error.MessageError.TheVariants as errors;
ghost use Rattle.st_wire.specs.Errors.{from_words};

use st_fields::WordsError;
use std::alloc::{AllocError, AllocFailed};

/// Why bytes are no message of a deployment, or a message not worked on.
#[derive(Clone, Copy, Debug, PartialEq, Eq)]
pub enum MessageError {
    /// There are this many bytes, more than 4,194,304.
    TooLong { bytes: usize },
    /// The bytes are no message's: `place` is the offset of the first field that is missing, cut short
    /// or out of its range, or the end of the message where bytes follow it.
    Malformed { place: usize },
    /// The message is of the deployment with this id.
    WrongDeployment { id: u64 },
    /// Memory was refused.
    OutOfMemory,
}

impl From<AllocError> for MessageError {
    ghost from_gives = { λ _ e. e ≡ errors.OutOfMemory };

    fn from(_: AllocError) -> MessageError {
        MessageError::OutOfMemory
    }
}

impl<T: Drop> From<AllocFailed<T>> for MessageError {
    ghost from_gives = { λ _ e. e ≡ errors.OutOfMemory };

    fn from(_: AllocFailed<T>) -> MessageError {
        MessageError::OutOfMemory
    }
}

impl From<WordsError> for MessageError {
    ghost from_gives = { λ d e. e ≡ from_words d };

    fn from(error: WordsError) -> MessageError {
        match error {
            WordsError::Malformed { place } => MessageError::Malformed { place },
            WordsError::OutOfMemory => MessageError::OutOfMemory,
        }
    }
}
