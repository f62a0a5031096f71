ghost use Rattle.std.specs.Prelude.{◌≡◌};
ghost use Rattle.st_replay.specs.declared.error.ReplayError.TheVariants as errors;

use st_fields::WordsError;
use st_report::ReportError;

/// Why an input has no report. Lines are numbered in the whole input, from 1.
#[derive(Clone, Copy, Debug, PartialEq, Eq)]
pub enum ReplayError {
    /// This line names what does not exist.
    BadReference { line: u32 },
    /// This line brings in bytes with a seal that checks for a correct party which never made it: the offset of
    /// that seal's bytes in the message.
    Forged { line: u32, place: usize },
    /// At this line so many messages would be sent: 65,537, one more than a world has room for.
    TooMany { line: u32, count: u32 },
    /// At this line so many bytes would be sent, with the first message for which a world has no room.
    TooMuch { line: u32, bytes: u64 },
    /// Memory was refused.
    OutOfMemory,
}

impl From<WordsError> for ReplayError {
    ghost from_gives = { λ _ e. e ≡ errors.OutOfMemory };

    fn from(_: WordsError) -> ReplayError {
        ReplayError::OutOfMemory
    }
}

impl From<ReportError> for ReplayError {
    ghost from_gives = { λ _ e. e ≡ errors.OutOfMemory };

    fn from(_: ReportError) -> ReplayError {
        ReplayError::OutOfMemory
    }
}
