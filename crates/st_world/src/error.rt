ghost use Rattle.std.specs.Prelude.{◌≡◌};
ghost use Rattle.st_world.specs.declared.error.WorldError.TheVariants as errors;
ghost use Rattle.st_world.specs.declared.error.StepError.TheVariants as steps;
ghost use Rattle.st_world.specs.Errors.{at_line};

use st_fields::WordsError;

/// Why a world doesn't go on.
#[derive(Clone, Copy, Debug, PartialEq, Eq)]
pub enum WorldError {
    /// This line names what does not exist.
    BadReference { line: u32 },
    /// This line brings in bytes with a seal that checks for a correct party which never made it: the offset of
    /// that seal's bytes in the message.
    Forged { line: u32, place: usize },
    /// So many messages would be sent: 65,537, one more than a world has room for.
    TooMany { count: u32 },
    /// So many bytes would be sent, with the first message for which a world has no room.
    TooMuch { bytes: u64 },
    /// Memory was refused.
    OutOfMemory,
}

/// The same of one event, whose line isn't known.
#[derive(Clone, Copy, Debug, PartialEq, Eq)]
pub(crate) enum StepError {
    BadReference,
    Forged { place: usize },
    TooMany { count: u32 },
    TooMuch { bytes: u64 },
    OutOfMemory,
}

/// The error of an event at this line.
pub(crate) fn at_line(line: u32, error: StepError) -> WorldError
    ensures { result ≡ at_line line error }
{
    match error {
        StepError::BadReference => WorldError::BadReference { line },
        StepError::Forged { place } => WorldError::Forged { line, place },
        StepError::TooMany { count } => WorldError::TooMany { count },
        StepError::TooMuch { bytes } => WorldError::TooMuch { bytes },
        StepError::OutOfMemory => WorldError::OutOfMemory,
    }
}

impl From<WordsError> for WorldError {
    ghost from_gives = { λ _ e. e ≡ errors.OutOfMemory };

    fn from(_: WordsError) -> WorldError {
        WorldError::OutOfMemory
    }
}

impl From<WordsError> for StepError {
    ghost from_gives = { λ _ e. e ≡ steps.OutOfMemory };

    fn from(_: WordsError) -> StepError {
        StepError::OutOfMemory
    }
}
