ghost use Rattle.std.specs.Prelude.{◌≡◌, [], false, IsTrue, IfOk};
ghost use Rattle.st_words.specs.declared.ids.ServerId.{ServerId};

use crate::counts::{PLACES, raise};
use crate::disks::Disks;
use crate::error::DiskError;
use crate::file::FileDisk;
use st_words::ServerId;

/// The files `journal-s-i` of the current folder, for server i of site s. It tells its counts of faults
/// and nothing else.
#[derive(Drop)]
pub struct FileDisks {
    rt: HostRuntime,
    counts: [u64; PLACES],
}

impl FileDisks {
    ghost use Rattle.st_disk.specs.FileDisks.{file_faults};
    ghost use Rattle.st_disk.specs.FileRacks.{rack_faults};
    ghost use Rattle.st_disk.specs.Racks.{has_place};

    /// No fault has come yet.
    pub fn new(rt: HostRuntime) -> FileDisks
        ensures { (who : ServerId) → IsTrue (has_place who) → rack_faults result who ≡ 0 }
    {
        FileDisks {
            rt,
            counts: [0; PLACES],
        }
    }

    /// Opens a server's file.
    fn open(&self, who: ServerId) -> Result<FileDisk, DiskError>
        ensures { IfOk result (λ d. file_faults d ≡ 0) }
    {
        let name = format!(in self.rt.alloc(); "journal-{}-{}", who.site, who.index)?;
        match FileDisk::open(&self.rt, name.as_str()) {
            Ok(disk) => Ok(disk),
            Err(_) => Err(DiskError::Failed),
        }
    }
}

impl Disks for FileDisks {
    ghost use Rattle.st_disk.specs.FileRacks.{rack_faults};

    type D = FileDisk;

    ghost tells = { ⊥ };

    ghost faults = { rack_faults };

    ghost file = { λ _ _. [] };

    ghost takes = { λ _. [] };

    ghost is_out = { λ _ _. false };

    ghost disks_tell = { λ told. told };

    fn take(&mut self, who: ServerId) -> Result<FileDisk, DiskError> {
        match self.open(who) {
            Ok(disk) => Ok(disk),
            Err(DiskError::Failed) => {
                raise(&mut self.counts, who);
                Err(DiskError::Failed)
            }
            Err(DiskError::OutOfMemory) => Err(DiskError::OutOfMemory),
        }
    }

    fn back(&mut self, who: ServerId, disk: FileDisk) {
        if disk.faults() > 0 {
            raise(&mut self.counts, who);
        }
    }
}
