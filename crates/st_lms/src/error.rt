ghost use Rattle.std.specs.Prelude.{◌≡◌};
ghost use Rattle.st_lms.specs.declared.error.LmsError.TheVariants as errors;

use std::alloc::{AllocError, AllocFailed};

/// Why there is no tree, no signature, or no answer to whether one is right.
#[derive(Clone, Copy, Debug, PartialEq, Eq)]
pub enum LmsError {
    /// The type `got` is none that is taken, or the signature's type `got` isn't the key's.
    BadType { got: u32 },
    /// A key or a signature has `got` bytes, and one of its types has `want`.
    BadLength { got: usize, want: usize },
    /// The tree has no leaf `q`.
    BadLeaf { q: u32 },
    /// Memory was refused.
    OutOfMemory,
}

impl From<AllocError> for LmsError {
    ghost from_gives = { λ _ e. e ≡ errors.OutOfMemory };

    fn from(_: AllocError) -> LmsError {
        LmsError::OutOfMemory
    }
}

impl<T: Drop> From<AllocFailed<T>> for LmsError {
    ghost from_gives = { λ _ e. e ≡ errors.OutOfMemory };

    fn from(_: AllocFailed<T>) -> LmsError {
        LmsError::OutOfMemory
    }
}
