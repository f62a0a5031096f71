ghost use Rattle.std.specs.Prelude.{◌≡◌};
ghost use Rattle.st_fields.specs.declared.error.WordsError.TheVariants as words;
ghost use Rattle.st_fields.specs.declared.error.FieldError.TheVariants as fields;

use std::alloc::{AllocError, AllocFailed};

/// Why bytes were not read, or a value not made.
#[derive(Clone, Copy, Debug, PartialEq, Eq)]
pub enum WordsError {
    /// The bytes are no spelling: `place` is the offset of the first field that is missing, cut short
    /// or out of its range, or the end of the spelling where bytes follow it.
    Malformed { place: usize },
    /// Memory was refused.
    OutOfMemory,
}

impl From<AllocError> for WordsError {
    ghost from_gives = { λ _ e. e ≡ words.OutOfMemory };

    fn from(_: AllocError) -> WordsError {
        WordsError::OutOfMemory
    }
}

impl<T: Drop> From<AllocFailed<T>> for WordsError {
    ghost from_gives = { λ _ e. e ≡ words.OutOfMemory };

    fn from(_: AllocFailed<T>) -> WordsError {
        WordsError::OutOfMemory
    }
}

/// Why a field was not read.
#[derive(Clone, Copy, Debug, PartialEq, Eq)]
pub enum FieldError {
    /// The field is missing, cut short or out of its range: `left` bytes were left where it begins.
    Refused { left: usize },
    /// Memory was refused.
    OutOfMemory,
}

impl From<AllocError> for FieldError {
    ghost from_gives = { λ _ e. e ≡ fields.OutOfMemory };

    fn from(_: AllocError) -> FieldError {
        FieldError::OutOfMemory
    }
}

impl<T: Drop> From<AllocFailed<T>> for FieldError {
    ghost from_gives = { λ _ e. e ≡ fields.OutOfMemory };

    fn from(_: AllocFailed<T>) -> FieldError {
        FieldError::OutOfMemory
    }
}
