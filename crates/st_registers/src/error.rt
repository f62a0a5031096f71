ghost use Rattle.std.specs.Prelude.{◌≡◌};
ghost use Rattle.st_registers.specs.declared.error.FlatError.TheVariants as flat;

use st_words::WordsError;
use std::alloc::{AllocError, AllocFailed};

/// Why a flat step is refused.
#[derive(Clone, Copy, Debug, PartialEq, Eq)]
pub enum FlatError {
    /// Another value is proposed in the view at the number.
    Taken,
    /// In some lower view neither the value is proposed nor a majority of the registers closed.
    Unsafe,
    /// No value is proposed in the view at the number.
    NotProposed,
    /// The register is accepted or closed.
    Written,
    /// No majority has accepted one value in the view at the number.
    NoMajority,
    /// Memory was refused.
    OutOfMemory,
}

/// Copies and lists fail for memory alone.
impl From<WordsError> for FlatError {
    ghost from_gives = { λ _ e. e ≡ flat.OutOfMemory };

    fn from(_: WordsError) -> FlatError {
        FlatError::OutOfMemory
    }
}

impl From<AllocError> for FlatError {
    ghost from_gives = { λ _ e. e ≡ flat.OutOfMemory };

    fn from(_: AllocError) -> FlatError {
        FlatError::OutOfMemory
    }
}

impl<T: Drop> From<AllocFailed<T>> for FlatError {
    ghost from_gives = { λ _ e. e ≡ flat.OutOfMemory };

    fn from(_: AllocFailed<T>) -> FlatError {
        FlatError::OutOfMemory
    }
}
