ghost use Rattle.std.specs.Prelude.{◌≡◌, ◌≤◌, ◌-◌, ℕ, List, Option, IfOk, IfErr, OnOk, OnErr, min, length, take, drop};
ghost use Rattle.st_disk.specs.Files.{padded, written, Torn, Resized};
ghost use Rattle.st_disk.specs.Crashes.{Only, Follows, Rests, IsClean, Elapses, HasCause};
ghost use Rattle.st_disk.specs.Countdowns.{CountsCall};

use crate::error::DiskError;

/// One file. Each call is a device call. What a disk says of the file stands where it tells it.
pub trait Disk: Drop {
    /// That the disk tells what it holds.
    ghost tells: { Type 0 };

    /// That it also tells its countdown. Then a fault changes nothing.
    ghost counts_down: { Type 0 };

    /// How many faults there were, at most 2^64-1.
    ghost faults: { Self → ℕ };

    /// How many device calls from now the one is that is set to fail, if any is.
    ghost countdown: { Self → Option ℕ };

    /// The bytes that reads give.
    ghost seen: { Self → List ℕ };

    /// The bytes that the last sync left.
    ghost synced: { Self → List ℕ };

    /// What a crash now may leave.
    ghost may_leave: { Self → List ℕ → Type 0 };

    /// The moment, as a number that doesn't fall.
    ghost moment: { Self → ℕ };

    /// What a crash at some moment from that one on may have left, during a call or between two.
    ghost left_since: { Self → ℕ → List ℕ → Type 0 };

    /// How many bytes the file has.
    fn size(&mut self) -> Result<u64, DiskError>
        ensures value { IfOk result (λ n. tells → n ≡ length (seen self.old)) }
        ensures rests { tells → Rests seen synced may_leave self.old self.new }
        ensures time { tells → Elapses moment left_since may_leave self.old self.new }
        ensures cause { HasCause (faults self.old) (faults self.new) result }
        ensures countdown { counts_down → CountsCall (countdown self.old) (countdown self.new) (faults self.old) (faults self.new) result };

    /// Moves the bytes from offset `at` on to the front of `piece`, and says how many: fewer than asked
    /// for only at the end of the file.
    fn read_at(&mut self, at: u64, piece: &mut [u8]) -> Result<usize, DiskError>
        ensures bound { IfOk result (λ n. n ≤ length piece.new) }
        ensures whole { IfOk result (λ n. tells → n ≡ min (length piece.new) (length (seen self.old) - at)) }
        ensures given { IfOk result (λ n. tells → take n piece.new ≡ take n (drop at (seen self.old))) }
        ensures rests { tells → Rests seen synced may_leave self.old self.new }
        ensures time { tells → Elapses moment left_since may_leave self.old self.new }
        ensures cause { HasCause (faults self.old) (faults self.new) result }
        ensures countdown { counts_down → CountsCall (countdown self.old) (countdown self.new) (faults self.old) (faults self.new) result };

    /// Puts the bytes of `piece` at offset `at`, over what is there and past the end; zeros fill a gap.
    /// Until a sync a crash may leave any bytes there. After Failed it may be made in part or whole.
    fn write_at(&mut self, at: u64, piece: &[u8]) -> Result<(), DiskError>
        ensures written { OnOk result (tells → seen self.new ≡ written at piece.now (seen self.old)) }
        ensures torn { tells → Torn at (length piece.now) (seen self.old) (seen self.new) }
        ensures crash { tells → Follows (Torn at (length piece.now)) (may_leave self.old) (may_leave self.new) }
        ensures synced { tells → synced self.new ≡ synced self.old }
        ensures clean { tells → IfErr result (λ e. IsClean counts_down e → Rests seen synced may_leave self.old self.new) }
        ensures time { tells → Elapses moment left_since may_leave self.old self.new }
        ensures cause { HasCause (faults self.old) (faults self.new) result }
        ensures countdown { counts_down → CountsCall (countdown self.old) (countdown self.new) (faults self.old) (faults self.new) result };

    /// Makes the file so long: cuts it, or fills it up with zeros. Until a sync a crash may leave any
    /// length between. After Failed it may be made in part or whole.
    fn cut(&mut self, size: u64) -> Result<(), DiskError>
        ensures cut { OnOk result (tells → seen self.new ≡ padded size (seen self.old)) }
        ensures resized { tells → Resized size (seen self.old) (seen self.new) }
        ensures crash { tells → Follows (Resized size) (may_leave self.old) (may_leave self.new) }
        ensures synced { tells → synced self.new ≡ synced self.old }
        ensures clean { tells → IfErr result (λ e. IsClean counts_down e → Rests seen synced may_leave self.old self.new) }
        ensures time { tells → Elapses moment left_since may_leave self.old self.new }
        ensures cause { HasCause (faults self.old) (faults self.new) result }
        ensures countdown { counts_down → CountsCall (countdown self.old) (countdown self.new) (faults self.old) (faults self.new) result };

    /// Brings the file onto the disk: after Ok a crash leaves what reads give.
    fn sync(&mut self) -> Result<(), DiskError>
        ensures durable { OnOk result (tells → Only (seen self.new) (may_leave self.new)) }
        ensures seen { tells → seen self.new ≡ seen self.old }
        ensures synced { OnOk result (tells → synced self.new ≡ seen self.old) }
        ensures rests { tells → OnErr result (Rests seen synced may_leave self.old self.new) }
        ensures time { tells → Elapses moment left_since may_leave self.old self.new }
        ensures cause { HasCause (faults self.old) (faults self.new) result }
        ensures countdown { counts_down → CountsCall (countdown self.old) (countdown self.new) (faults self.old) (faults self.new) result };

    /// A crash may leave what reads give: all writes were made.
    ghost leaves_seen: { (d : Self) → may_leave d (seen d) };

    /// A crash may leave what the last sync left: none of the later writes was made.
    ghost leaves_synced: { (d : Self) → may_leave d (synced d) };

    /// This moment is one of those since an earlier one.
    ghost counts_now: { (d : Self) (t : ℕ) (c : List ℕ) → t ≤ moment d → may_leave d c → left_since d t c };

    /// Since this moment there is no other.
    ghost only_now: { (d : Self) (c : List ℕ) → left_since d (moment d) c → may_leave d c };
}
