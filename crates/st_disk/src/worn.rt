ghost use Rattle.std.specs.Prelude.{◌≡◌, ◌≢◌, ◌≤◌, ◌-◌, [], length, min, take, drop, if◌then◌else◌, Some, None, Err, OnOk, OnErr, IfOk, IfErr, IsOkUnless};
ghost use Rattle.st_disk.specs.declared.error.DiskError.TheVariants as disks;
ghost use Rattle.st_disk.specs.Crashes.{Only, Follows, Rests, IsClean, Elapses, HasCause};
ghost use Rattle.st_disk.specs.Countdowns.{CountsCall};
ghost use Rattle.st_disk.specs.Files.{padded, written, Torn, Resized};

use crate::disk::Disk;
use crate::error::DiskError;
use crate::memory::MemoryDisk;
use std::alloc::Global;

/// A disk in memory whose failed writes are made: in the set call a write or a cut is made, and then
/// Failed is answered. It tells what it holds, and not its countdown.
#[derive(Debug, Drop)]
pub struct WornDisk {
    disk: MemoryDisk,
}

impl WornDisk {
    ghost use Rattle.st_disk.specs.Worn.{worn_seen, worn_synced, worn_image, worn_countdown, worn_faults, StaysWorn};

    /// An empty disk: no call is set to fail. Takes no memory.
    pub fn new(alloc: Global) -> Result<WornDisk, DiskError>
        ensures empty { IfOk result (λ d. worn_seen d ≡ []) }
        ensures durable { IfOk result (λ d. Only [] (worn_image d)) }
        ensures none { IfOk result (λ d. (worn_countdown d ≡ None) × (worn_faults d ≡ 0)) }
        ensures memory { IsOkUnless result disks.OutOfMemory }
    {
        let disk = MemoryDisk::new(alloc)?;
        Ok(WornDisk { disk })
    }

    /// Sets the `k`-th device call from now to fail, in place of any that was set. A write or a cut that is
    /// refused memory isn't counted. Takes no memory.
    pub fn fail_at(&mut self, k: u32)
        requires { 1 ≤ k }
        ensures set { worn_countdown self.new ≡ Some k }
        ensures faults { worn_faults self.new ≡ worn_faults self.old }
        ensures file { StaysWorn self.old self.new }
    {
        self.disk.fail_at(k);
    }

    /// The disk after a crash that left all of the unsynced writes or none. Afterwards no call is set to
    /// fail. Takes no memory.
    pub fn crash(self, kept: bool) -> WornDisk
        ensures file { worn_seen result ≡ (if kept then worn_seen self else worn_synced self) }
        ensures durable { Only (worn_seen result) (worn_image result) }
        ensures none { worn_countdown result ≡ None }
        ensures faults { worn_faults result ≡ worn_faults self }
    {
        let WornDisk { disk } = self;
        WornDisk {
            disk: disk.crash(kept),
        }
    }
}

impl Disk for WornDisk {
    ghost use Rattle.st_disk.specs.Memory.{start_of, calls_of};
    ghost use Rattle.st_disk.specs.MemoryLaws.{leaves_content, leaves_durable, image_since, image_now};
    ghost use Rattle.st_disk.specs.Worn.{inner, worn_seen, worn_synced, worn_image, worn_moment, worn_image_since, worn_countdown, worn_faults};

    ghost tells = { Unit {0} };

    ghost counts_down = { ⊥ };

    ghost faults = { worn_faults };

    ghost countdown = { worn_countdown };

    ghost seen = { worn_seen };

    ghost synced = { worn_synced };

    ghost may_leave = { worn_image };

    ghost moment = { worn_moment };

    ghost left_since = { worn_image_since };

    ghost leaves_seen = { λ d. leaves_content (start_of (inner d)) (calls_of (inner d)) };

    ghost leaves_synced = { λ d. leaves_durable (start_of (inner d)) (calls_of (inner d)) };

    ghost counts_now = { λ d t c le image. image_since (start_of (inner d)) t (calls_of (inner d)) c image };

    ghost only_now = { λ d c image. image_now (start_of (inner d)) (calls_of (inner d)) c image };

    fn size(&mut self) -> Result<u64, DiskError>
        // As for every disk, and the countdown.
        ensures value { IfOk result (λ n. n ≡ length (worn_seen self.old)) }
        ensures rests { Rests worn_seen worn_synced worn_image self.old self.new }
        ensures time { Elapses worn_moment worn_image_since worn_image self.old self.new }
        ensures cause { HasCause (worn_faults self.old) (worn_faults self.new) result }
        ensures countdown { CountsCall (worn_countdown self.old) (worn_countdown self.new) (worn_faults self.old) (worn_faults self.new) result }
    {
        self.disk.size()
    }

    fn read_at(&mut self, at: u64, piece: &mut [u8]) -> Result<usize, DiskError>
        // As for every disk, and the countdown.
        ensures bound { IfOk result (λ n. n ≤ length piece.new) }
        ensures whole { IfOk result (λ n. n ≡ min (length piece.new) (length (worn_seen self.old) - at)) }
        ensures given { IfOk result (λ n. take n piece.new ≡ take n (drop at (worn_seen self.old))) }
        ensures rests { Rests worn_seen worn_synced worn_image self.old self.new }
        ensures time { Elapses worn_moment worn_image_since worn_image self.old self.new }
        ensures cause { HasCause (worn_faults self.old) (worn_faults self.new) result }
        ensures countdown { CountsCall (worn_countdown self.old) (worn_countdown self.new) (worn_faults self.old) (worn_faults self.new) result }
    {
        self.disk.read_at(at, piece)
    }

    fn write_at(&mut self, at: u64, piece: &[u8]) -> Result<(), DiskError>
        // Made and counted, also where Failed is answered, unless memory is refused.
        ensures made { result ≢ Err disks.OutOfMemory → worn_seen self.new ≡ written at piece.now (worn_seen self.old) }
        ensures counted { result ≢ Err disks.OutOfMemory → CountsCall (worn_countdown self.old) (worn_countdown self.new) (worn_faults self.old) (worn_faults self.new) result }
        ensures refused { result ≡ Err disks.OutOfMemory → (worn_countdown self.new ≡ worn_countdown self.old) × (worn_faults self.new ≡ worn_faults self.old) }

        // As for every disk.
        ensures torn { Torn at (length piece.now) (worn_seen self.old) (worn_seen self.new) }
        ensures crash { Follows (Torn at (length piece.now)) (worn_image self.old) (worn_image self.new) }
        ensures synced { worn_synced self.new ≡ worn_synced self.old }
        ensures clean { IfErr result (λ e. IsClean ⊥ e → Rests worn_seen worn_synced worn_image self.old self.new) }
        ensures time { Elapses worn_moment worn_image_since worn_image self.old self.new }
        ensures cause { HasCause (worn_faults self.old) (worn_faults self.new) result }
    {
        self.disk.write(at, piece)?;
        if self.disk.fails() {
            return Err(DiskError::Failed);
        }
        Ok(())
    }

    fn cut(&mut self, size: u64) -> Result<(), DiskError>
        // Made and counted, also where Failed is answered, unless memory is refused.
        ensures made { result ≢ Err disks.OutOfMemory → worn_seen self.new ≡ padded size (worn_seen self.old) }
        ensures counted { result ≢ Err disks.OutOfMemory → CountsCall (worn_countdown self.old) (worn_countdown self.new) (worn_faults self.old) (worn_faults self.new) result }
        ensures refused { result ≡ Err disks.OutOfMemory → (worn_countdown self.new ≡ worn_countdown self.old) × (worn_faults self.new ≡ worn_faults self.old) }

        // As for every disk.
        ensures resized { Resized size (worn_seen self.old) (worn_seen self.new) }
        ensures crash { Follows (Resized size) (worn_image self.old) (worn_image self.new) }
        ensures synced { worn_synced self.new ≡ worn_synced self.old }
        ensures clean { IfErr result (λ e. IsClean ⊥ e → Rests worn_seen worn_synced worn_image self.old self.new) }
        ensures time { Elapses worn_moment worn_image_since worn_image self.old self.new }
        ensures cause { HasCause (worn_faults self.old) (worn_faults self.new) result }
    {
        self.disk.resize(size)?;
        if self.disk.fails() {
            return Err(DiskError::Failed);
        }
        Ok(())
    }

    fn sync(&mut self) -> Result<(), DiskError>
        // As for every disk, and the countdown.
        ensures durable { OnOk result (Only (worn_seen self.new) (worn_image self.new)) }
        ensures seen { worn_seen self.new ≡ worn_seen self.old }
        ensures synced { OnOk result (worn_synced self.new ≡ worn_seen self.old) }
        ensures rests { OnErr result (Rests worn_seen worn_synced worn_image self.old self.new) }
        ensures time { Elapses worn_moment worn_image_since worn_image self.old self.new }
        ensures cause { HasCause (worn_faults self.old) (worn_faults self.new) result }
        ensures countdown { CountsCall (worn_countdown self.old) (worn_countdown self.new) (worn_faults self.old) (worn_faults self.new) result }
    {
        self.disk.sync()
    }
}
