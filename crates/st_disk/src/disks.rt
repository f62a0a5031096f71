ghost use Rattle.std.specs.Prelude.{◌≡◌, ◌≢◌, ◌≤◌, ℕ, Bool, true, false, List, IsTrue, IfOk, OnOk, OnErr};
ghost use Rattle.st_io.specs.Causes.{Rose};
ghost use Rattle.st_words.specs.declared.ids.ServerId.{ServerId};
ghost use Rattle.st_disk.specs.declared.error.DiskError.TheVariants as disks;
ghost use Rattle.st_disk.specs.Racks.{takes_after, IsUntouched};

use crate::disk::Disk;
use crate::error::DiskError;
use st_words::ServerId;

/// The disks of a deployment's servers. What a rack says of files and calls stands where it tells it.
pub trait Disks {
    type D: Disk;

    /// That it tells what each disk holds, its takes, and which disks are out.
    ghost tells: { Type 0 };

    /// How many faults there were of a server's disk, at most 2^64-1.
    ghost faults: { Self → ServerId → ℕ };

    /// What a server's disk holds, while it isn't out.
    ghost file: { Self → ServerId → List ℕ };

    /// The servers of the takes so far that answered Ok or Failed, in order.
    ghost takes: { Self → List ServerId };

    /// Whether a server's disk is out: from a take that answered Ok until it is given back.
    ghost is_out: { Self → ServerId → Bool };

    /// Hands out a server's disk, whose own count of faults is 0.
    fn take(&mut self, who: ServerId) -> Result<Self::D, DiskError>
        ensures given { IfOk result (λ d. tells → Self.D.seen d ≡ file self.old who) }
        ensures clean { IfOk result (λ d. Self.D.faults d ≡ 0) }
        ensures out { tells → OnOk result (is_out self.new who ≡ true) }
        ensures kept { tells → OnErr result (IsUntouched file is_out self.old self.new who) }
        ensures takes { tells → takes self.new ≡ takes_after result (takes self.old) who }
        ensures others { (other : ServerId) → other ≢ who → faults self.new other ≡ faults self.old other }
        ensures others_kept { tells → (other : ServerId) → other ≢ who → IsUntouched file is_out self.old self.new other }
        ensures later { faults self.old who ≤ faults self.new who }
        ensures failed { result ≡ Err disks.Failed → Rose (faults self.old who) (faults self.new who) };

    /// Takes a disk back that was handed out. Takes no memory.
    fn back(&mut self, who: ServerId, disk: Self::D)
        requires { tells → IsTrue (is_out self.old who) }
        ensures file { tells → file self.new who ≡ Self.D.seen disk }
        ensures inside { tells → is_out self.new who ≡ false }
        ensures takes { tells → takes self.new ≡ takes self.old }
        ensures others { (other : ServerId) → other ≢ who → faults self.new other ≡ faults self.old other }
        ensures others_kept { tells → (other : ServerId) → other ≢ who → IsUntouched file is_out self.old self.new other }
        ensures same { Self.D.faults disk ≡ 0 → faults self.new who ≡ faults self.old who }
        ensures rises { Self.D.faults disk ≢ 0 → Rose (faults self.old who) (faults self.new who) };

    /// Where a rack tells what its disks hold, so do these.
    ghost disks_tell: { tells → Self.D.tells };
}
