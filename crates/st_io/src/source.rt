ghost use Rattle.std.specs.Prelude.{◌≡◌, ◌≤◌, ℕ, List, Some, Option, IfOk, OnOk, OnErr};
ghost use Rattle.std.specs.Io.{ReadsAtMost};
ghost use Rattle.st_io.specs.Causes.{Rose};

/// A read failed.
#[derive(Clone, Copy, Debug, PartialEq, Eq)]
pub struct Failed;

/// Where bytes come from.
pub trait Source {
    ghost use Rattle.st_io.specs.Streams.{Gives};

    /// The bytes still to come, where the source tells them.
    ghost left: { Self → Option (List ℕ) };

    /// How many faults there were, at most 2^64-1.
    ghost faults: { Self → ℕ };

    /// Moves bytes to the front of `piece`, and says how many: 0 at the end, or where the piece is
    /// empty. Failed leaves the bytes, and comes exactly where the count of faults rose.
    fn read(&mut self, piece: &mut [u8]) -> Result<usize, Failed>
        ensures bound { ReadsAtMost result piece.new }
        ensures given { IfOk result (λ n. (bytes : List ℕ) → left self.old ≡ Some bytes → Gives bytes (left self.new) n piece.new) }
        ensures kept { OnErr result (left self.new ≡ left self.old) }
        ensures no_fault { OnOk result (faults self.new ≡ faults self.old) }
        ensures later { faults self.old ≤ faults self.new }
        ensures failed { OnErr result (Rose (faults self.old) (faults self.new)) };
}
