ghost use Rattle.std.specs.Prelude.{◌≡◌, ◌≤◌, ◌+◌, ◌<◌, ◌^◌, All, replicate, take, drop, min, ◌-◌, ◌++◌, ◌∷◌, [], length, reverse, if◌then◌else◌, Some, None, OnOk, OnErr, IfOk, IsTrue, IsOkUnless, vec_capacity};
ghost use Rattle.st_disk.specs.declared.error.DiskError.TheVariants as disks;
ghost use Rattle.st_disk.specs.declared.call.Call.TheVariants as made;
ghost use Rattle.st_disk.specs.Calls.{IsKept, after, content, reach};
ghost use Rattle.st_disk.specs.Files.{padded, written};

use crate::call::Call;
use crate::countdown::Countdown;
use crate::disk::Disk;
use crate::error::DiskError;
use st_fields::Seq;
use std::alloc::Global;

/// A disk in memory that tells all. It keeps a record of its calls, from which every image of a crash at
/// every moment can be told; the bytes are what the record makes.
#[derive(Debug, Drop)]
pub struct MemoryDisk {
    /// The calls that changed the file, or its place on the disk, oldest first.
    calls: Seq<Call>,
    /// How many of the first of them were made before the last crash.
    settled: usize,
    /// How many of the first of them are on the disk.
    synced: usize,
    /// The file, in a vector that has room for each of the calls.
    bytes: Vec<u8>,
    countdown: Countdown,
    ghost kept: { IsKept calls settled synced bytes.items (vec_capacity bytes) },
}

impl MemoryDisk {
    ghost use Rattle.st_disk.specs.Memory.{start_of, calls_of, seen_of, synced_of, image_of, countdown_of, faults_of, cleared, Makes, Stays};
    ghost use Rattle.st_disk.specs.Crashes.{Only};
    ghost use Rattle.st_disk.specs.Countdowns.{called, is_due};
    ghost use Rattle.st_io.specs.Causes.{Rose};

    /// An empty disk: no call is set to fail. Takes no memory.
    pub fn new(alloc: Global) -> Result<MemoryDisk, DiskError>
        ensures empty { IfOk result (λ d. (start_of d ≡ []) × (calls_of d ≡ [])) }
        ensures none { IfOk result (λ d. (countdown_of d ≡ None) × (faults_of d ≡ 0)) }
        ensures memory { IsOkUnless result disks.OutOfMemory }
    {
        Ok(MemoryDisk {
            calls: Seq::new(alloc),
            settled: 0,
            synced: 0,
            bytes: Vec::new(alloc),
            countdown: Countdown {
                left: None,
                faults: 0,
            },
        })
    }

    /// Sets the `k`-th device call from now to fail, in place of any that was set. Takes no memory.
    pub fn fail_at(&mut self, k: u32)
        requires { 1 ≤ k }
        ensures set { countdown_of self.new ≡ Some k }
        ensures faults { faults_of self.new ≡ faults_of self.old }
        ensures file { Stays self.old self.new }
    {
        self.countdown.left = Some(k);
    }

    /// The disk after a crash that left all of the unsynced writes or none. Afterwards no call is set to
    /// fail. Takes no memory.
    pub fn crash(self, kept: bool) -> MemoryDisk
        ensures file { seen_of result ≡ (if kept then seen_of self else synced_of self) }
        ensures durable { Only (seen_of result) (image_of result) }
        ensures none { countdown_of result ≡ None }
        ensures faults { faults_of result ≡ faults_of self }
    {
        let MemoryDisk {
            calls,
            settled: _,
            synced,
            mut bytes,
            countdown,
        } = self;
        if kept {
            return MemoryDisk::begun(calls, bytes, countdown.faults);
        }
        let calls = first_of(calls, synced);
        replay(&calls, &mut bytes);
        MemoryDisk::begun(calls, bytes, countdown.faults)
    }

    /// A disk that a crash left with this record of calls, all of them on the disk.
    fn begun(calls: Seq<Call>, bytes: Vec<u8>, faults: u64) -> MemoryDisk
        requires made { bytes.items ≡ content [] (reverse calls) }
        requires fits { All (λ call. reach call ≤ vec_capacity bytes) calls }
        ensures start { start_of result ≡ bytes.items }
        ensures calls { calls_of result ≡ [] }
        ensures none { countdown_of result ≡ None }
        ensures faults { faults_of result ≡ faults }
    {
        MemoryDisk {
            settled: calls.len(),
            synced: calls.len(),
            calls,
            bytes,
            countdown: Countdown { left: None, faults },
        }
    }

    /// How many calls failed, at most 2^64-1.
    pub(crate) fn faults(&self) -> u64
        ensures { result ≡ faults_of self.now }
    {
        self.countdown.faults
    }

    /// The disk with its faults told: its count is 0.
    pub(crate) fn cleared(self) -> MemoryDisk
        ensures { result ≡ cleared self }
    {
        let mut disk = self;
        disk.countdown.faults = 0;
        disk
    }

    /// Counts a device call, and answers whether it is the set call.
    pub(crate) fn fails(&mut self) -> bool
        ensures answer { result ≡ is_due 1 (countdown_of self.old) }
        ensures counted { self.new ≡ record self.old { countdown = called self.old.countdown } }
        ensures later { faults_of self.old ≤ faults_of self.new }
        ensures rises { IsTrue result → Rose (faults_of self.old) (faults_of self.new) }
    {
        self.countdown.fails()
    }

    /// Makes a write, or nothing where memory is refused.
    pub(crate) fn write(&mut self, at: u64, piece: &[u8]) -> Result<(), DiskError>
        ensures ok { OnOk result (Makes (made.Write at piece.now) self.old self.new) }
        ensures err { OnErr result (Stays self.old self.new) }
        ensures countdown { self.new.countdown ≡ self.old.countdown }
        ensures memory { IsOkUnless result disks.OutOfMemory }
    {
        let start = at as usize;
        if start > usize::MAX - piece.len() {
            return Err(DiskError::OutOfMemory);
        }
        let copy = Vec::from_slice(*self.bytes.allocator(), piece)?;
        let call = Call::Write {
            at: start,
            piece: Seq::from_vec(copy),
        };
        note(&mut self.calls, &mut self.bytes, call)?;
        lay(&mut self.bytes, start, piece);
        Ok(())
    }

    /// Changes the size, or nothing where memory is refused.
    pub(crate) fn resize(&mut self, size: u64) -> Result<(), DiskError>
        ensures ok { OnOk result (Makes (made.Cut size) self.old self.new) }
        ensures err { OnErr result (Stays self.old self.new) }
        ensures countdown { self.new.countdown ≡ self.old.countdown }
        ensures memory { IsOkUnless result disks.OutOfMemory }
    {
        let size = size as usize;
        note(&mut self.calls, &mut self.bytes, Call::Cut { size })?;
        set_size(&mut self.bytes, size);
        Ok(())
    }

    /// Notes a sync, or nothing where memory is refused.
    fn settle(&mut self) -> Result<(), DiskError>
        ensures ok { OnOk result (Makes made.Sync self.old self.new) }
        ensures err { OnErr result (Stays self.old self.new) }
        ensures countdown { self.new.countdown ≡ self.old.countdown }
        ensures memory { IsOkUnless result disks.OutOfMemory }
    {
        note(&mut self.calls, &mut self.bytes, Call::Sync)?;
        self.synced = self.calls.len();
        Ok(())
    }
}

/// The first `count` calls.
fn first_of(calls: Seq<Call>, count: usize) -> Seq<Call>
    ensures { result ≡ take count calls }
{
    let mut calls = calls.into_vec();
    calls.truncate(count);
    Seq::from_vec(calls)
}

/// Makes all calls of a record again, on an empty file, in the room that the bytes have.
fn replay(calls: &Seq<Call>, bytes: &mut Vec<u8>)
    requires { All (λ call. reach call ≤ vec_capacity bytes.old) calls.now }
    ensures made { bytes.new.items ≡ content [] (reverse calls.now) }
    ensures room { vec_capacity bytes.old ≤ vec_capacity bytes.new }
{
    bytes.clear();
    for call in calls.as_slice() {
        apply(bytes, call);
    }
}

/// Makes a call on the bytes, which have room for it.
fn apply(bytes: &mut Vec<u8>, call: &Call)
    requires { reach call.now ≤ vec_capacity bytes.old }
    ensures made { bytes.new.items ≡ after call.now bytes.old.items }
    ensures room { vec_capacity bytes.old ≤ vec_capacity bytes.new }
{
    match call {
        Call::Write { at, piece } => lay(bytes, *at, piece.as_slice()),
        Call::Cut { size } => set_size(bytes, *size),
        Call::Sync => {}
    }
}

/// Puts a piece into the bytes, which have room for it; zeros fill a gap.
fn lay(bytes: &mut Vec<u8>, at: usize, piece: &[u8])
    requires { at + length piece.now ≤ vec_capacity bytes.old }
    ensures made { bytes.new.items ≡ written at piece.now bytes.old.items }
    ensures room { vec_capacity bytes.old ≤ vec_capacity bytes.new }
{
    fill_to(bytes, at + piece.len());
    paste(bytes, at, piece);
}

/// Fills the bytes up with zeros to this length, for which they have room.
fn fill_to(bytes: &mut Vec<u8>, end: usize)
    requires { end ≤ vec_capacity bytes.old }
    ensures filled { bytes.new.items ≡ bytes.old.items ++ replicate (end - length bytes.old.items) 0 }
    ensures room { vec_capacity bytes.old ≤ vec_capacity bytes.new }
{
    let end = bytes.len().max(end);
    let _ = bytes.resize(end, 0);
}

/// Writes a piece over the bytes from `at` on.
fn paste(bytes: &mut [u8], at: usize, piece: &[u8])
    requires { at + length piece.now ≤ length bytes.old }
    ensures { bytes.new ≡ (take at bytes.old ++ piece.now) ++ drop (at + length piece.now) bytes.old }
{
    bytes[at..at + piece.len()].copy_from_slice(piece);
}

/// Cuts the bytes, which have room for so many, or fills them up with zeros.
fn set_size(bytes: &mut Vec<u8>, size: usize)
    requires { size ≤ vec_capacity bytes.old }
    ensures made { bytes.new.items ≡ padded size bytes.old.items }
    ensures room { vec_capacity bytes.old ≤ vec_capacity bytes.new }
{
    let _ = bytes.resize(size, 0);
}

/// Puts a call last in the record, and makes room for it in the bytes. Where memory is refused, the
/// record and the bytes are as before.
fn note(calls: &mut Seq<Call>, bytes: &mut Vec<u8>, call: Call) -> Result<(), DiskError>
    requires { reach call < 2 ^ 64 }
    ensures ok { OnOk result ((calls.new ≡ calls.old ++ call ∷ []) × (reach call ≤ vec_capacity bytes.new)) }
    ensures err { OnErr result (calls.new ≡ calls.old) }
    ensures same { bytes.new.items ≡ bytes.old.items }
    ensures room { vec_capacity bytes.old ≤ vec_capacity bytes.new }
    ensures memory { IsOkUnless result disks.OutOfMemory }
{
    let end = call.reach();
    bytes.reserve(end.saturating_sub(bytes.len()))?;
    match calls.push(call) {
        Ok(()) => Ok(()),
        Err(_) => Err(DiskError::OutOfMemory),
    }
}

impl Disk for MemoryDisk {
    ghost use Rattle.st_disk.specs.Memory.{seen_of, synced_of, image_of, moment_of, image_since_of, countdown_of, faults_of, start_of, calls_of};
    ghost use Rattle.st_disk.specs.MemoryLaws.{leaves_content, leaves_durable, image_since, image_now};

    ghost tells = { Unit {0} };

    ghost counts_down = { Unit {0} };

    ghost faults = { faults_of };

    ghost countdown = { countdown_of };

    ghost seen = { seen_of };

    ghost synced = { synced_of };

    ghost may_leave = { image_of };

    ghost moment = { moment_of };

    ghost left_since = { image_since_of };

    ghost leaves_seen = { λ d. leaves_content (start_of d) (calls_of d) };

    ghost leaves_synced = { λ d. leaves_durable (start_of d) (calls_of d) };

    ghost counts_now = { λ d t c le image. image_since (start_of d) t (calls_of d) c image };

    ghost only_now = { λ d c image. image_now (start_of d) (calls_of d) c image };

    fn size(&mut self) -> Result<u64, DiskError> {
        if self.countdown.fails() {
            return Err(DiskError::Failed);
        }
        Ok(self.bytes.as_slice().len() as u64)
    }

    fn read_at(&mut self, at: u64, piece: &mut [u8]) -> Result<usize, DiskError> {
        if self.countdown.fails() {
            return Err(DiskError::Failed);
        }
        Ok(read_from(self.bytes.as_slice(), at, piece))
    }

    fn write_at(&mut self, at: u64, piece: &[u8]) -> Result<(), DiskError> {
        if self.countdown.fails() {
            return Err(DiskError::Failed);
        }
        match self.write(at, piece) {
            Ok(()) => Ok(()),
            Err(e) => Err(e),
        }
    }

    fn cut(&mut self, size: u64) -> Result<(), DiskError> {
        if self.countdown.fails() {
            return Err(DiskError::Failed);
        }
        match self.resize(size) {
            Ok(()) => Ok(()),
            Err(e) => Err(e),
        }
    }

    fn sync(&mut self) -> Result<(), DiskError> {
        if self.countdown.fails() {
            return Err(DiskError::Failed);
        }
        match self.settle() {
            Ok(()) => Ok(()),
            Err(e) => Err(e),
        }
    }
}

/// Copies the bytes from offset `at` on to the front of `piece`, as many as there are and fit, and
/// answers how many.
fn read_from(bytes: &[u8], at: u64, piece: &mut [u8]) -> usize
    ensures count { result ≡ min (length piece.new) (length bytes.now - at) }
    ensures front { take result piece.new ≡ take result (drop at bytes.now) }
    ensures bound { result ≤ length piece.new }
{
    if at >= bytes.len() as u64 {
        return 0;
    }
    let rest = &bytes[at as usize..];
    let count = rest.len().min(piece.len());
    piece[..count].copy_from_slice(&rest[..count]);
    count
}
