ghost use Rattle.std.specs.Prelude.{◌≡◌};
ghost use Rattle.st_journal.specs.declared.error.JournalError.TheVariants as journals;
ghost use Rattle.st_journal.specs.Errors.{from_disk};

use st_disk::DiskError;
use std::alloc::{AllocError, AllocFailed};

/// Why a journal was not started, or a body not appended.
#[derive(Clone, Copy, Debug, PartialEq, Eq)]
pub enum JournalError {
    /// The disk failed: its count of faults rose.
    DiskFault,
    /// The file would be longer than its limit: so long, or 2^64-1 where that is less.
    Full { bytes: u64 },
    /// The file is no journal: the offset of its first fault.
    NotJournal { place: u64 },
    /// Memory was refused.
    OutOfMemory,
}

/// Why something was not started on a disk, and the disk.
#[derive(Debug, Drop)]
pub struct NotStarted<E, D> {
    pub error: E,
    pub disk: D,
}

impl From<AllocError> for JournalError {
    ghost from_gives = { λ _ e. e ≡ journals.OutOfMemory };

    fn from(_: AllocError) -> JournalError {
        JournalError::OutOfMemory
    }
}

impl<T: Drop> From<AllocFailed<T>> for JournalError {
    ghost from_gives = { λ _ e. e ≡ journals.OutOfMemory };

    fn from(_: AllocFailed<T>) -> JournalError {
        JournalError::OutOfMemory
    }
}

impl From<DiskError> for JournalError {
    ghost from_gives = { λ d e. e ≡ from_disk d };

    fn from(error: DiskError) -> JournalError {
        match error {
            DiskError::Failed => JournalError::DiskFault,
            DiskError::OutOfMemory => JournalError::OutOfMemory,
        }
    }
}
