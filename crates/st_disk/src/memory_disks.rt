ghost use Rattle.std.specs.Prelude.{◌≡◌, ◌≢◌, ◌≤◌, ◌<◌, ◌+◌, ◌*◌, ◌++◌, ◌∷◌, [], All, ℕ, Bool, true, false, List, IsTrue, None, Some, Err, length, nat_lt, ◌&&◌, IfOk, IfSome, OnOk, OnErr, IsOkUnless};
ghost use Rattle.st_io.specs.Causes.{Rose};
ghost use Rattle.st_words.specs.declared.ids.ServerId.{ServerId};
ghost use Rattle.st_disk.specs.declared.error.DiskError.TheVariants as disks;
ghost use Rattle.st_disk.specs.Racks.{takes_after, IsUntouched};
ghost use Rattle.st_disk.specs.Memory.{seen_of, faults_of};
ghost use Rattle.st_disk.specs.MemoryPlaces.{IsTold, IsEmpty};

use crate::counts::{PLACES, raise};
use crate::disks::Disks;
use crate::error::DiskError;
use crate::memory::MemoryDisk;
use st_words::ServerId;
use std::alloc::Global;

/// A disk in memory for each server of a deployment. It tells all, and chosen takes fail.
#[derive(Drop)]
pub struct MemoryDisks {
    /// How many sites there are, and servers of each site.
    sites: u8,
    servers: u8,
    /// The disk of each place; None where it is out.
    disks: Vec<Option<MemoryDisk>>,
    counts: [u64; PLACES],
    /// The takes so far that answered Ok or Failed, in order.
    takes: Vec<ServerId>,
    /// The takes to fail, from 0.
    fails: Vec<u32>,
    ghost sites_fit: { sites ≤ 7 },
    ghost servers_fit: { servers ≤ 7 },
    ghost places: { length disks.items ≡ 49 },
    ghost told: { All IsTold disks.items },
}

impl MemoryDisks {
    ghost use Rattle.st_disk.specs.MemoryRacks.{has_server, disk_in, file_in, out_of, faults_in, takes_in, fails_in, fails_next, Places, SameCalls};

    /// An empty disk for each of the 3f+1 servers of each site. `fails` lists the takes to fail, counted
    /// from 0 over those that answer Ok or Failed.
    pub fn new(alloc: Global, sites: u8, f: u8, fails: &[u32]) -> Result<MemoryDisks, DiskError>
        requires sites { sites ≤ 7 }
        requires f { f ≤ 2 }
        ensures servers { IfOk result (λ rack. (who : ServerId) → has_server rack who ≡ (nat_lt who.site sites && nat_lt who.index (3 * f + 1))) }
        ensures empty { IfOk result (λ rack. (who : ServerId) → IsTrue (has_server rack who) → IsEmpty (disk_in rack who)) }
        ensures files { IfOk result (λ rack. (who : ServerId) → file_in rack who ≡ []) }
        ensures inside { IfOk result (λ rack. (who : ServerId) → out_of rack who ≡ false) }
        ensures counts { IfOk result (λ rack. (who : ServerId) → IsTrue (has_server rack who) → faults_in rack who ≡ 0) }
        ensures takes { IfOk result (λ rack. takes_in rack ≡ []) }
        ensures fails { IfOk result (λ rack. fails_in rack ≡ fails.now) }
        ensures memory { IsOkUnless result disks.OutOfMemory }
    {
        let disks = empty_disks(alloc)?;
        let fails = Vec::from_slice(alloc, fails)?;
        Ok(MemoryDisks {
            sites,
            servers: 3 * f + 1,
            disks,
            counts: [0; PLACES],
            takes: Vec::new(alloc),
            fails,
        })
    }

    /// Puts a disk in the place of a server's. Takes no memory.
    pub fn put(&mut self, who: ServerId, disk: MemoryDisk)
        requires server { IsTrue (has_server self.old who) }
        requires inside { out_of self.old who ≡ false }
        requires told { faults_of disk ≡ 0 }
        ensures place { Places self.old self.new who (Some disk) }
        ensures calls { SameCalls self.old self.new }
        ensures counts { (other : ServerId) → faults_in self.new other ≡ faults_in self.old other }
    {
        self.lay_in(who, disk);
    }

    /// Puts a disk in a server's place.
    fn lay_in(&mut self, who: ServerId, disk: MemoryDisk)
        requires server { IsTrue (has_server self.old who) }
        requires told { faults_of disk ≡ 0 }
        ensures place { Places self.old self.new who (Some disk) }
        ensures calls { SameCalls self.old self.new }
        ensures counts { self.new.counts ≡ self.old.counts }
    {
        self.disks[7 * usize::from(who.site) + usize::from(who.index)] = Some(disk);
    }

    /// Takes the disk out of a server's place, where one is there.
    fn take_out(&mut self, who: ServerId) -> Option<MemoryDisk>
        ensures disk { result ≡ disk_in self.old who }
        ensures told { IfSome result (λ d. faults_of d ≡ 0) }
        ensures place { Places self.old self.new who None }
        ensures calls { SameCalls self.old self.new }
        ensures counts { self.new.counts ≡ self.old.counts }
    {
        if who.site < self.sites && who.index < self.servers {
            return self.disks[7 * usize::from(who.site) + usize::from(who.index)].take();
        }
        None
    }

    /// Whether the next take is to fail.
    fn fails_next(&self) -> bool
        ensures { result ≡ fails_next self.now }
    {
        let calls = self.takes.len() as u64;
        self.fails
            .as_slice()
            .iter()
            .any(|place| u64::from(*place) == calls)
    }
}

/// An empty disk for each place.
fn empty_disks(alloc: Global) -> Result<Vec<Option<MemoryDisk>>, DiskError>
    ensures places { IfOk result (λ disks. length disks.items ≡ 49) }
    ensures empty { IfOk result (λ disks. All IsEmpty disks.items) }
    ensures memory { IsOkUnless result disks.OutOfMemory }
{
    let mut disks = Vec::new(alloc);
    for _place in 0..PLACES {
        let disk = MemoryDisk::new(alloc)?;
        disks.push(Some(disk))?;
    }
    Ok(disks)
}

impl Disks for MemoryDisks {
    ghost use Rattle.st_disk.specs.Memory.{seen_of, faults_of, cleared};
    ghost use Rattle.st_disk.specs.MemoryRacks.{disk_in, file_in, out_of, faults_in, takes_in, fails_in, is_refused, left_by, Places, SameCalls};

    type D = MemoryDisk;

    ghost tells = { Unit {0} };

    ghost faults = { faults_in };

    ghost file = { file_in };

    ghost takes = { takes_in };

    ghost is_out = { out_of };

    ghost disks_tell = { λ told. told };

    /// Hands out the disk in a server's place, and fails where that is to be, or where none is there.
    fn take(&mut self, who: ServerId) -> Result<MemoryDisk, DiskError>
        // Which takes fail, what is handed out, and what stays.
        ensures refused { result ≡ Err disks.Failed → IsTrue (is_refused self.old who) }
        ensures made { OnOk result (is_refused self.old who ≡ false) }
        ensures handed { IfOk result (λ d. disk_in self.old who ≡ Some d) }
        ensures place { Places self.old self.new who (left_by result (disk_in self.old who)) }
        ensures fails { fails_in self.new ≡ fails_in self.old }
        ensures counts { result ≢ Err disks.Failed → faults_in self.new who ≡ faults_in self.old who }

        // As for every rack.
        ensures given { IfOk result (λ d. seen_of d ≡ file_in self.old who) }
        ensures clean { IfOk result (λ d. faults_of d ≡ 0) }
        ensures out { OnOk result (out_of self.new who ≡ true) }
        ensures kept { OnErr result (IsUntouched file_in out_of self.old self.new who) }
        ensures takes { takes_in self.new ≡ takes_after result (takes_in self.old) who }
        ensures others { (other : ServerId) → other ≢ who → faults_in self.new other ≡ faults_in self.old other }
        ensures others_kept { (other : ServerId) → other ≢ who → IsUntouched file_in out_of self.old self.new other }
        ensures later { faults_in self.old who ≤ faults_in self.new who }
        ensures failed { result ≡ Err disks.Failed → Rose (faults_in self.old who) (faults_in self.new who) }
    {
        let fails = self.fails_next();
        self.takes.push(who)?;
        if !fails {
            if let Some(disk) = self.take_out(who) {
                return Ok(disk);
            }
        }
        raise(&mut self.counts, who);
        Err(DiskError::Failed)
    }

    fn back(&mut self, who: ServerId, disk: MemoryDisk)
        requires { IsTrue (out_of self.old who) }

        // Its place has the disk, whose faults are told.
        ensures place { Places self.old self.new who (Some (cleared disk)) }
        ensures calls { SameCalls self.old self.new }

        // As for every rack.
        ensures file { file_in self.new who ≡ seen_of disk }
        ensures inside { out_of self.new who ≡ false }
        ensures takes { takes_in self.new ≡ takes_in self.old }
        ensures others { (other : ServerId) → other ≢ who → faults_in self.new other ≡ faults_in self.old other }
        ensures others_kept { (other : ServerId) → other ≢ who → IsUntouched file_in out_of self.old self.new other }
        ensures same { faults_of disk ≡ 0 → faults_in self.new who ≡ faults_in self.old who }
        ensures rises { faults_of disk ≢ 0 → Rose (faults_in self.old who) (faults_in self.new who) }
    {
        let faults = disk.faults();
        self.lay_in(who, disk.cleared());
        if faults > 0 {
            raise(&mut self.counts, who);
        }
    }
}
