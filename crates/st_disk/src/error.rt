ghost use Rattle.std.specs.Prelude.{◌≡◌};
ghost use Rattle.st_disk.specs.declared.error.DiskError.TheVariants as disks;

use std::alloc::{AllocError, AllocFailed};

/// Why a device call failed. After Failed a write or a cut may be made all the same.
#[derive(Clone, Copy, Debug, PartialEq, Eq)]
pub enum DiskError {
    /// The disk failed: its count of faults rose.
    Failed,
    /// Memory was refused.
    OutOfMemory,
}

impl From<AllocError> for DiskError {
    ghost from_gives = { λ _ e. e ≡ disks.OutOfMemory };

    fn from(_: AllocError) -> DiskError {
        DiskError::OutOfMemory
    }
}

impl<T: Drop> From<AllocFailed<T>> for DiskError {
    ghost from_gives = { λ _ e. e ≡ disks.OutOfMemory };

    fn from(_: AllocFailed<T>) -> DiskError {
        DiskError::OutOfMemory
    }
}
