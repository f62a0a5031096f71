ghost use Rattle.std.specs.Prelude.{◌≡◌, ◌≤◌, ◌<◌, IfOk, IsOkUnless};
ghost use Rattle.st_seal.specs.declared.sealer.SealError.TheVariants as seals;

use st_fields::Bytes;
use st_words::Who;
use std::alloc::{AllocError, Global};

/// Why there is no seal.
#[derive(Clone, Copy, Debug, PartialEq, Eq)]
pub enum SealError {
    /// The leaf is at least the capacity.
    Spent { leaf: u32 },
    /// Memory was refused.
    OutOfMemory,
}

impl From<AllocError> for SealError {
    ghost from_gives = { λ _ e. e ≡ seals.OutOfMemory };

    fn from(_: AllocError) -> SealError {
        SealError::OutOfMemory
    }
}

/// A party's seals. A leaf is to be used for one message alone.
pub trait Sealer: Drop {
    ghost use Rattle.st_seal.specs.Pen.{Pen, IsSound};

    /// Whose seals these are, and which seal each leaf gives.
    ghost pen: { Self → Pen };

    /// The seal over `bytes` with this leaf; Spent exactly where the leaf is at least the capacity.
    fn seal(&mut self, alloc: Global, leaf: u32, bytes: &[u8]) -> Result<Bytes, SealError>
        ensures same { pen self.new ≡ pen self.old }
        ensures sealed { IfOk result (λ seal. seal ≡ (pen self.old).seal_of leaf bytes.now) }
        ensures spent { (pen self.old).capacity ≤ leaf → result ≡ Err (seals.Spent leaf) }
        ensures memory { leaf < (pen self.old).capacity → IsOkUnless result seals.OutOfMemory };

    /// How many leaves there are, at most 2^20.
    fn capacity(&self) -> u32
        ensures { result ≡ (pen self.now).capacity };

    ghost sound: { (s : Self) → IsSound (pen s) };
}

/// Whether a seal is a party's.
pub trait Check: Drop {
    ghost use Rattle.st_seal.specs.Pen.{Checks};

    ghost checks: { Self → Checks };

    /// Whether `seal` is the seal of `who` over `bytes`. Takes no memory.
    fn check(&self, who: Who, bytes: &[u8], seal: &[u8]) -> bool
        ensures { result ≡ checks self.now who bytes.now seal.now };
}
