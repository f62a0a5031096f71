ghost use Rattle.std.specs.Prelude.{◌≡◌, ◌≤◌, ◌<◌, ℕ, List, Option, IfOk, OnOk, OnErr, length, take};
ghost use Rattle.st_io.specs.Causes.{Rose};
ghost use Rattle.st_io.specs.declared.sink.SinkError.TheVariants as sinks;

use std::alloc::AllocError;

/// Why a piece was not taken.
#[derive(Clone, Copy, Debug, PartialEq, Eq)]
pub enum SinkError {
    Failed,
    /// Memory was refused.
    OutOfMemory,
}

impl From<AllocError> for SinkError {
    ghost from_gives = { λ _ e. e ≡ sinks.OutOfMemory };

    fn from(_: AllocError) -> SinkError {
        SinkError::OutOfMemory
    }
}

/// Where bytes go.
pub trait Sink {
    ghost use Rattle.st_io.specs.Streams.{Adds};

    /// The bytes taken so far, where the sink tells them.
    ghost taken: { Self → Option (List ℕ) };

    /// How many faults there were, at most 2^64-1.
    ghost faults: { Self → ℕ };

    /// Takes bytes from the front of `piece`, and says how many: at least 1, unless the piece is
    /// empty. An error takes none; Failed comes only where the count of faults rose,
    /// which it does at no Ok.
    fn write(&mut self, piece: &[u8]) -> Result<usize, SinkError>
        ensures bound { IfOk result (λ n. n ≤ length piece.now) }
        ensures some { IfOk result (λ n. 0 < length piece.now → 0 < n) }
        ensures added { IfOk result (λ n. Adds (taken self.old) (taken self.new) (take n piece.now)) }
        ensures kept { OnErr result (taken self.new ≡ taken self.old) }
        ensures no_fault { OnOk result (faults self.new ≡ faults self.old) }
        ensures later { faults self.old ≤ faults self.new }
        ensures failed { result ≡ Err sinks.Failed → Rose (faults self.old) (faults self.new) };
}
