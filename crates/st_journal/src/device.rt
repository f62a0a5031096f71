//! Device calls together: a change of the file and the sync that brings it onto the disk, and a sync
//! and what the file then holds.

ghost use Rattle.std.specs.Prelude.{◌≡◌, ◌≤◌, ◌⊎◌, List, ℕ, None, take, length, OnOk, OnErr, IfOk, if◌then◌else◌};
ghost use Rattle.st_disk.specs.declared.error.DiskError.TheVariants as disks;
ghost use Rattle.st_disk.specs.Files.{written, padded};
ghost use Rattle.st_disk.specs.Crashes.{Only, LeavesOnly, HasCause};
ghost use Rattle.st_disk.specs.Countdowns.{is_due};
ghost use Rattle.st_journal.specs.Devices.{TornFrom, ResizedFrom, CountsCalls, IsQuiet};
ghost use Rattle.st_journal.specs.Faults.{Unsynced, SyncedFirst};

use st_disk::{Disk, DiskError};
use std::alloc::Global;

/// Writes a piece, and brings it onto the disk.
pub(crate) fn put<D: Disk>(disk: &mut D, at: u64, piece: &[u8]) -> Result<(), DiskError>
    ensures file { OnOk result (D.tells → D.seen disk.new ≡ written at piece.now (D.seen disk.old)) }
    ensures durable { OnOk result (D.tells → Only (D.seen disk.new) (D.may_leave disk.new)) }
    ensures any_moment { D.tells → LeavesOnly D.moment D.left_since disk.old disk.new (TornFrom (D.may_leave disk.old) at (length piece.now)) }
    ensures synced { OnErr result (D.tells → D.synced disk.new ≡ D.synced disk.old) }
    ensures kept { D.tells → D.counts_down → result ≡ Err disks.Failed → D.seen disk.new ≡ (if is_due 1 (D.countdown disk.old) then D.seen disk.old else written at piece.now (D.seen disk.old)) }
    ensures cause { HasCause (D.faults disk.old) (D.faults disk.new) result }
    ensures calls { D.counts_down → CountsCalls 2 (D.countdown disk.old) (D.countdown disk.new) result }
{
    match disk.write_at(at, piece) {
        Ok(()) => match disk.sync() {
            Ok(()) => Ok(()),
            Err(e) => Err(e),
        },
        Err(e) => Err(e),
    }
}

/// Cuts the file, and brings the cut onto the disk.
pub(crate) fn shorten<D: Disk>(disk: &mut D, size: u64) -> Result<(), DiskError>
    ensures file { OnOk result (D.tells → D.seen disk.new ≡ padded size (D.seen disk.old)) }
    ensures durable { OnOk result (D.tells → Only (D.seen disk.new) (D.may_leave disk.new)) }
    ensures any_moment { D.tells → LeavesOnly D.moment D.left_since disk.old disk.new (ResizedFrom (D.may_leave disk.old) size) }
    ensures cause { HasCause (D.faults disk.old) (D.faults disk.new) result }
    ensures calls { D.counts_down → CountsCalls 2 (D.countdown disk.old) (D.countdown disk.new) result }
{
    match disk.cut(size) {
        Ok(()) => match disk.sync() {
            Ok(()) => Ok(()),
            Err(e) => Err(e),
        },
        Err(e) => Err(e),
    }
}

/// The whole file, after a sync that brings it onto the disk.
pub(crate) fn read_synced<D: Disk>(alloc: Global, disk: &mut D) -> Result<Vec<u8>, DiskError>
    ensures file { IfOk result (λ bytes. D.tells → bytes.items ≡ D.seen disk.old) }
    ensures same { D.tells → D.seen disk.new ≡ D.seen disk.old }
    ensures durable { OnOk result (D.tells → Only (D.seen disk.new) (D.may_leave disk.new)) }
    ensures any_moment { D.tells → LeavesOnly D.moment D.left_since disk.old disk.new (D.may_leave disk.old) }
    ensures synced_first { OnOk result (D.tells → SyncedFirst D.seen D.moment D.left_since D.may_leave disk.old disk.new (λ c. c ≡ D.seen disk.old)) }
    ensures first { OnErr result (D.tells → Unsynced D.seen D.moment D.left_since D.may_leave disk.old disk.new
        ⊎ SyncedFirst D.seen D.moment D.left_since D.may_leave disk.old disk.new (λ c. c ≡ D.seen disk.old)) }
    ensures cause { HasCause (D.faults disk.old) (D.faults disk.new) result }
    ensures unset { D.counts_down → D.countdown disk.old ≡ None → IsQuiet (D.countdown disk.new) result }
{
    match disk.sync() {
        Ok(()) => match read_whole(alloc, disk) {
            Ok(bytes) => Ok(bytes),
            Err(e) => Err(e),
        },
        Err(e) => Err(e),
    }
}

/// The whole file.
fn read_whole<D: Disk>(alloc: Global, disk: &mut D) -> Result<Vec<u8>, DiskError>
    ensures file { IfOk result (λ bytes. D.tells → bytes.items ≡ D.seen disk.old) }
    ensures same { D.tells → D.seen disk.new ≡ D.seen disk.old }
    ensures fewer { D.tells → (c : List ℕ) → D.may_leave disk.new c → D.may_leave disk.old c }
    ensures any_moment { D.tells → LeavesOnly D.moment D.left_since disk.old disk.new (D.may_leave disk.old) }
    ensures cause { HasCause (D.faults disk.old) (D.faults disk.new) result }
    ensures unset { D.counts_down → D.countdown disk.old ≡ None → IsQuiet (D.countdown disk.new) result }
{
    match disk.size() {
        Ok(size) => match read_front(alloc, disk, size as usize) {
            Ok(bytes) => Ok(bytes),
            Err(e) => Err(e),
        },
        Err(e) => Err(e),
    }
}

/// The first bytes of the file, as many as asked for.
fn read_front<D: Disk>(alloc: Global, disk: &mut D, count: usize) -> Result<Vec<u8>, DiskError>
    ensures file { IfOk result (λ bytes. D.tells → bytes.items ≡ take count (D.seen disk.old)) }
    ensures same { D.tells → D.seen disk.new ≡ D.seen disk.old }
    ensures fewer { D.tells → (c : List ℕ) → D.may_leave disk.new c → D.may_leave disk.old c }
    ensures any_moment { D.tells → LeavesOnly D.moment D.left_since disk.old disk.new (D.may_leave disk.old) }
    ensures cause { HasCause (D.faults disk.old) (D.faults disk.new) result }
    ensures unset { D.counts_down → D.countdown disk.old ≡ None → IsQuiet (D.countdown disk.new) result }
{
    let mut bytes = vec![in alloc; 0; count]?;
    match disk.read_at(0, bytes.as_mut_slice()) {
        Ok(got) => {
            bytes.truncate(got);
            Ok(bytes)
        }
        Err(e) => Err(e),
    }
}
