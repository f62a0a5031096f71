ghost use Rattle.std.specs.Prelude.{◌≡◌};
ghost use Rattle.st_lmots.specs.declared.error.OtsError.TheVariants as errors;

use std::alloc::AllocError;

/// Why there is no signature, or no candidate.
#[derive(Clone, Copy, Debug, PartialEq, Eq)]
pub enum OtsError {
    /// The type `got` is none of the four, or the signature's type `got` isn't the key's.
    BadType { got: u32 },
    /// The signature has `got` bytes, and one of its type has `want`.
    BadLength { got: usize, want: usize },
    /// Memory was refused.
    OutOfMemory,
}

impl From<AllocError> for OtsError {
    ghost from_gives = { λ _ e. e ≡ errors.OutOfMemory };

    fn from(_: AllocError) -> OtsError {
        OtsError::OutOfMemory
    }
}
