ghost use Rattle.std.specs.Prelude.{◌≡◌};
ghost use Rattle.st_hss.specs.declared.error.HssError.TheVariants as errors;

use std::alloc::AllocError;

/// Why there is no key, or no seal.
#[derive(Clone, Copy, Debug, PartialEq, Eq)]
pub enum HssError {
    /// The height, the width or the number of levels is no choice.
    BadProfile,
    /// The index is at least the number of seals.
    Spent { index: u32 },
    /// Memory was refused.
    OutOfMemory,
}

impl From<AllocError> for HssError {
    ghost from_gives = { λ _ e. e ≡ errors.OutOfMemory };

    fn from(_: AllocError) -> HssError {
        HssError::OutOfMemory
    }
}
