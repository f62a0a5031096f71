ghost use Rattle.std.specs.Prelude.{◌≡◌, ◌≢◌, ◌↔◌, ◌⊎◌, ◌≤◌, ◌<◌, ◌+◌, ◌^◌, ◌++◌, ◌∷◌, [], List, ℕ, Some, None, length, IfOk, IfErr, OnOk, OnErr, if◌then◌else◌};
ghost use Rattle.st_disk.specs.declared.error.DiskError.TheVariants as disks;
ghost use Rattle.st_disk.specs.Crashes.{Only, LeavesOnly, HasCause};
ghost use Rattle.st_disk.specs.Countdowns.{is_due};
ghost use Rattle.st_journal.specs.declared.error.JournalError.TheVariants as journals;
ghost use Rattle.st_journal.specs.Blocks.{staged, bodies_of, IsFile, IsFaultOf, IsBeforeOrAfter};
ghost use Rattle.st_journal.specs.Devices.{CountsCalls, IsQuiet};
ghost use Rattle.st_journal.specs.Ready.{IsReady, IsOnDisk};
ghost use Rattle.st_journal.specs.Faults.{Faults, IsStartFault, IsBeforeOrSame, LeavesInStart, bodies_read};

use crate::blocks::{Bodies, read_file};
use crate::device::{put, read_synced, shorten};
use crate::error::{JournalError, NotStarted};
use st_disk::{Disk, DiskError, MemoryDisk};
use st_fields::{Seq, put_byte, put_bytes, put_u32};
use std::alloc::{AllocError, Global};

/// A file of at most so many bytes stands for no body.
const SHORT: usize = 9;

/// A new journal: the mark and a closed gate.
const FRESH: &[u8] = b"STJRNL01\0";

/// A list of bodies in a file, each of which is on the disk once it was appended.
#[derive(Drop)]
pub struct Journal<D> {
    disk: D,
    /// The offset of the closed gate.
    end: u64,
    /// How long the file may get.
    limit: u64,
    ghost bounded: { limit ≤ 2 ^ 32 },
}

impl<D: Disk> Journal<D> {
    ghost use Rattle.st_journal.specs.Journals.{Stands, Starts, CountsAppend, answer_of, disk_after, disk_of, limit_of, length_of, length_with};

    /// Starts a journal on a disk, and answers the bodies of its file. A file of at most 9 bytes becomes a
    /// new journal; what stands behind the closed gate of a longer one is cut off. NotJournal changes
    /// nothing of the file. Full is never answered. An error hands the disk back.
    pub fn start(
        alloc: Global,
        disk: D,
        limit: u64,
    ) -> Result<(Journal<D>, Bodies), NotStarted<JournalError, D>>
        requires least { 9 ≤ limit }
        requires most { limit ≤ 2 ^ 32 }
        ensures never_full { IfErr result (λ e. (bytes : ℕ) → e.error ≢ journals.Full bytes) }

        // The bodies that the file stands for, or its first fault.
        ensures answer { D.tells → Starts (answer_of result) (bodies_of (D.seen disk)) }
        ensures stands { IfOk result (λ x. D.tells → Stands D.seen D.may_leave x.0 x.1) }
        ensures limit { IfOk result (λ x. limit_of x.0 ≡ limit) }

        // A crash at any moment leaves the bodies that the file stands for or, before the first sync is done,
        // what a crash before the call could have left.
        ensures any_moment { D.tells → LeavesOnly D.moment D.left_since disk (disk_after result) (IsBeforeOrSame (D.may_leave disk) (D.seen disk)) }

        // What a crash before the call could have left ends with a sync that changes nothing of the file. From
        // then on a crash leaves the bodies that are answered, and where none are, the same file or one with
        // the same bodies or fault. Only DiskFault and OutOfMemory may come before that sync is made.
        ensures first_sync { D.tells → LeavesInStart D.seen D.moment D.left_since D.may_leave disk (disk_after result) (answer_of result) }

        ensures unchanged { IfErr result (λ e. (place : ℕ) → e.error ≡ journals.NotJournal place → D.tells
            → (D.seen e.disk ≡ D.seen disk) × Only (D.seen disk) (D.may_leave e.disk)) }

        ensures later { D.faults disk ≤ D.faults (disk_after result) }
        ensures cause { IfErr result (λ e. Faults e.error (D.faults disk) (D.faults e.disk)) }

        // Where no device call is set to fail, none fails and none is set afterwards.
        ensures unset { D.counts_down → D.countdown disk ≡ None → D.countdown (disk_after result) ≡ None }
        ensures no_fault { D.counts_down → D.countdown disk ≡ None → IfErr result (λ e. e.error ≢ journals.DiskFault) }
    {
        let mut disk = disk;
        match begin(alloc, &mut disk) {
            Ok((bodies, end)) => Ok((Journal { disk, end, limit }, bodies)),
            Err(error) => Err(NotStarted { error, disk }),
        }
    }

    /// Appends a body. After Ok it is on the disk. After DiskFault or OutOfMemory the journal has to be
    /// started again, and the body is there or not. Four device calls, or fewer where one fails; none where
    /// it is Full. NotJournal is never answered.
    pub fn append(&mut self, alloc: Global, body: &[u8]) -> Result<(), JournalError>
        ensures never_no_journal { (place : ℕ) → result ≢ Err (journals.NotJournal place) }
        ensures appended { OnOk result (D.tells → (bodies : List (List ℕ)) → Stands D.seen D.may_leave self.old bodies
            → Stands D.seen D.may_leave self.new (bodies ++ body.now ∷ [])) }

        // A crash at any moment leaves the bodies from before, with the new one or without.
        ensures any_moment { D.tells → (bodies : List (List ℕ)) → Stands D.seen D.may_leave self.old bodies
            → LeavesOnly D.moment D.left_since (disk_of self.old) (disk_of self.new) (IsBeforeOrAfter bodies body.now) }

        // After an error the last sync left the bodies from before.
        ensures lost { OnErr result (D.tells → (bodies : List (List ℕ)) → Stands D.seen D.may_leave self.old bodies
            → bodies_of (D.synced (disk_of self.new)) ≡ Ok bodies) }

        // Where the countdown is told, a fault leaves the new one to be read exactly where it was the fourth call.
        ensures kept { D.tells → D.counts_down → (bodies : List (List ℕ)) → Stands D.seen D.may_leave self.old bodies
            → result ≡ Err journals.DiskFault → bodies_of (D.seen (disk_of self.new)) ≡ Ok (if is_due 3 (D.countdown (disk_of self.old)) then bodies else bodies ++ body.now ∷ []) }

        // Full exactly where the file would be longer than the limit, with that length; then nothing was done.
        ensures full { (bytes : ℕ) → (result ≡ Err (journals.Full bytes)) ↔ ((limit_of self.old < length_with self.old body.now) × (bytes ≡ length_with self.old body.now)) }
        ensures unchanged { (bytes : ℕ) → result ≡ Err (journals.Full bytes) → self.new ≡ self.old }

        ensures limit { limit_of self.new ≡ limit_of self.old }
        ensures length { OnOk result (length_of self.new ≡ length_with self.old body.now) }
        ensures later { D.faults (disk_of self.old) ≤ D.faults (disk_of self.new) }
        ensures cause { IfErr result (λ e. Faults e (D.faults (disk_of self.old)) (D.faults (disk_of self.new))) }
        ensures calls { D.counts_down → CountsAppend (D.countdown (disk_of self.old)) (D.countdown (disk_of self.new)) result }
    {
        let count = body.len() as u64;
        let bytes = self.end.saturating_add(6).saturating_add(count);
        if bytes > self.limit {
            return Err(JournalError::Full { bytes });
        }
        match add(alloc, &mut self.disk, self.end, body) {
            Ok(()) => {
                self.end += 5 + count;
                Ok(())
            }
            Err(e) => Err(JournalError::from(e)),
        }
    }

    /// The disk on which the journal stands. Takes no memory.
    pub fn disk(&self) -> &D
        ensures { result.now ≡ disk_of self.now }
    {
        &self.disk
    }

    /// The disk on which the journal stood. Takes no memory.
    pub fn into_disk(self) -> D
        ensures { result ≡ disk_of self }
    {
        let Journal { disk, .. } = self;
        disk
    }
}

impl Journal<MemoryDisk> {
    ghost use Rattle.st_disk.specs.Memory.{Stays, countdown_of, faults_of};
    ghost use Rattle.st_journal.specs.Journals.{disk_of, limit_of, length_of};

    /// Sets the `k`-th device call from now to fail, in place of any that was set. The bodies stay as they
    /// were. Takes no memory.
    pub fn fail_at(&mut self, k: u32)
        requires { 1 ≤ k }
        ensures set { countdown_of (disk_of self.new) ≡ Some k }
        ensures faults { faults_of (disk_of self.new) ≡ faults_of (disk_of self.old) }
        ensures file { Stays (disk_of self.old) (disk_of self.new) }
        ensures length { length_of self.new ≡ length_of self.old }
        ensures limit { limit_of self.new ≡ limit_of self.old }
    {
        self.disk.fail_at(k);
    }
}

/// Reads a file and makes it one at rest: its bodies, and the offset of the closed gate.
fn begin<D: Disk>(alloc: Global, disk: &mut D) -> Result<(Bodies, u64), JournalError>
    ensures never_full { (bytes : ℕ) → result ≢ Err (journals.Full bytes) }
    ensures found { IfOk result (λ x. D.tells → (bodies_of (D.seen disk.old) ≡ Ok x.0) × IsReady x.0 x.1 (D.seen disk.new) (D.may_leave disk.new)) }
    ensures fault { IfErr result (λ e. D.tells → IsStartFault (bodies_of (D.seen disk.old)) e) }
    ensures unchanged { (place : ℕ) → result ≡ Err (journals.NotJournal place) → D.tells → (D.seen disk.new ≡ D.seen disk.old) × Only (D.seen disk.new) (D.may_leave disk.new) }
    ensures any_moment { D.tells → LeavesOnly D.moment D.left_since disk.old disk.new (IsBeforeOrSame (D.may_leave disk.old) (D.seen disk.old)) }
    ensures first_sync { D.tells → LeavesInStart D.seen D.moment D.left_since D.may_leave disk.old disk.new (bodies_read result) }
    ensures later { D.faults disk.old ≤ D.faults disk.new }
    ensures cause { IfErr result (λ e. Faults e (D.faults disk.old) (D.faults disk.new)) }
    ensures unset { D.counts_down → D.countdown disk.old ≡ None → (D.countdown disk.new ≡ None) × (result ≢ Err journals.DiskFault) }
{
    match read_synced(alloc, disk) {
        Ok(file) => match repair(alloc, disk, &file) {
            Ok(x) => Ok(x),
            Err(e) => Err(e),
        },
        Err(e) => Err(JournalError::from(e)),
    }
}

/// Makes the file, which is on the disk, one at rest.
fn repair<D: Disk>(alloc: Global, disk: &mut D, file: &[u8]) -> Result<(Bodies, u64), JournalError>
    ensures found { IfOk result (λ x. bodies_of file.now ≡ Ok x.0) }
    ensures ready { IfOk result (λ x. D.tells → IsOnDisk file.now (D.seen disk.old) (D.may_leave disk.old) → IsReady x.0 x.1 (D.seen disk.new) (D.may_leave disk.new)) }
    ensures fault { IfErr result (IsStartFault (bodies_of file.now)) }
    ensures unchanged { (place : ℕ) → result ≡ Err (journals.NotJournal place) → disk.new ≡ disk.old }
    ensures any_moment { D.tells → IsOnDisk file.now (D.seen disk.old) (D.may_leave disk.old) → LeavesOnly D.moment D.left_since disk.old disk.new (λ c. bodies_of c ≡ bodies_of file.now) }
    ensures later { D.faults disk.old ≤ D.faults disk.new }
    ensures cause { IfErr result (λ e. Faults e (D.faults disk.old) (D.faults disk.new)) }
    ensures unset { D.counts_down → D.countdown disk.old ≡ None → (D.countdown disk.new ≡ None) × (result ≢ Err journals.DiskFault) }
{
    if file.len() <= SHORT {
        return match make_new(disk) {
            Ok(()) => Ok((Seq::new(alloc), 8)),
            Err(e) => Err(JournalError::from(e)),
        };
    }
    match read_file(alloc, file) {
        Ok((bodies, end)) => match trim(disk, end, file.len()) {
            Ok(()) => Ok((bodies, end)),
            Err(e) => Err(JournalError::from(e)),
        },
        Err(e) => Err(e),
    }
}

/// What stands for a body behind its gate, and a closed gate.
#[tactic(auto, unfolding(crate::specs::Blocks::staged))]
fn stage(alloc: Global, body: &[u8]) -> Result<Vec<u8>, AllocError>
    requires { length body.now < 2 ^ 32 }
    ensures { IfOk result (λ piece. piece.items ≡ staged body.now) }
{
    let mut piece = Vec::new(alloc);
    put_u32(&mut piece, body.len() as u32)?;
    put_bytes(&mut piece, body)?;
    put_byte(&mut piece, 0)?;
    Ok(piece)
}

/// Adds a body to a file with a closed gate at its end: the body behind the gate, and when that is on the
/// disk, the gate opened. At most four device calls.
fn add<D: Disk>(alloc: Global, disk: &mut D, end: u64, body: &[u8]) -> Result<(), DiskError>
    requires room { end < 2 ^ 63 }
    requires short { length body.now < 2 ^ 32 }
    ensures added { OnOk result (D.tells → (bodies : List (List ℕ)) → IsReady bodies end (D.seen disk.old) (D.may_leave disk.old)
        → IsReady (bodies ++ body.now ∷ []) (end + (5 + length body.now)) (D.seen disk.new) (D.may_leave disk.new)) }
    ensures any_moment { D.tells → (bodies : List (List ℕ)) → IsReady bodies end (D.seen disk.old) (D.may_leave disk.old)
        → LeavesOnly D.moment D.left_since disk.old disk.new (IsBeforeOrAfter bodies body.now) }
    ensures lost { OnErr result (D.tells → (bodies : List (List ℕ)) → IsReady bodies end (D.seen disk.old) (D.may_leave disk.old)
        → bodies_of (D.synced disk.new) ≡ Ok bodies) }
    ensures kept { D.tells → D.counts_down → (bodies : List (List ℕ)) → IsReady bodies end (D.seen disk.old) (D.may_leave disk.old)
        → result ≡ Err disks.Failed → bodies_of (D.seen disk.new) ≡ Ok (if is_due 3 (D.countdown disk.old) then bodies else bodies ++ body.now ∷ []) }
    ensures cause { HasCause (D.faults disk.old) (D.faults disk.new) result }
    ensures calls { D.counts_down → CountsCalls 4 (D.countdown disk.old) (D.countdown disk.new) result }
{
    let piece = stage(alloc, body)?;
    match put(disk, end + 1, &piece) {
        Ok(()) => match put(disk, end, &[1]) {
            Ok(()) => Ok(()),
            Err(e) => Err(e),
        },
        Err(e) => Err(e),
    }
}

/// Makes a short file a new journal.
fn make_new<D: Disk>(disk: &mut D) -> Result<(), DiskError>
    ensures made { OnOk result (D.tells → IsReady [] 8 (D.seen disk.new) (D.may_leave disk.new)) }
    ensures any_moment { D.tells → length (D.seen disk.old) ≤ 9 → Only (D.seen disk.old) (D.may_leave disk.old)
        → LeavesOnly D.moment D.left_since disk.old disk.new (λ c. bodies_of c ≡ Ok []) }
    ensures cause { HasCause (D.faults disk.old) (D.faults disk.new) result }
    ensures unset { D.counts_down → D.countdown disk.old ≡ None → IsQuiet (D.countdown disk.new) result }
{
    match shorten(disk, 0) {
        Ok(()) => match put(disk, 0, FRESH) {
            Ok(()) => Ok(()),
            Err(e) => Err(e),
        },
        Err(e) => Err(e),
    }
}

/// Cuts off what stands behind the closed gate of a file of this length, where there is any.
fn trim<D: Disk>(disk: &mut D, end: u64, len: usize) -> Result<(), DiskError>
    requires { end < len }
    ensures made { OnOk result (D.tells → (bodies : List (List ℕ)) (junk : List ℕ) → IsFile bodies end junk (D.seen disk.old)
        → len ≡ length (D.seen disk.old) → Only (D.seen disk.old) (D.may_leave disk.old) → IsReady bodies end (D.seen disk.new) (D.may_leave disk.new)) }
    ensures any_moment { D.tells → (bodies : List (List ℕ)) (junk : List ℕ) → IsFile bodies end junk (D.seen disk.old)
        → Only (D.seen disk.old) (D.may_leave disk.old) → LeavesOnly D.moment D.left_since disk.old disk.new (λ c. bodies_of c ≡ Ok bodies) }
    ensures cause { HasCause (D.faults disk.old) (D.faults disk.new) result }
    ensures unset { D.counts_down → D.countdown disk.old ≡ None → IsQuiet (D.countdown disk.new) result }
{
    if end + 1 == len as u64 {
        return Ok(());
    }
    match shorten(disk, end + 1) {
        Ok(()) => Ok(()),
        Err(e) => Err(e),
    }
}
