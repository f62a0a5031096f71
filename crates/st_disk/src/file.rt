ghost use Rattle.std.specs.Prelude.{◌≡◌, ◌≤◌, [], None, IfOk, length};
ghost use Rattle.std.specs.declared.option.Option.{Option};
ghost use Rattle.st_disk.specs.Crashes.{HasCause};

use crate::disk::Disk;
use crate::error::DiskError;
use std::fs::{File, OpenOptions};
use std::io;
use std::os::unix::fs::FileExt;

/// A file of the current folder. It tells its count of faults and nothing of its bytes: that the file
/// keeps what a disk promises is trusted. Each error raises the count.
#[derive(Drop)]
pub struct FileDisk {
    file: File,
    /// The current folder, until its entry of the file is on the disk.
    folder: Option<File>,
    faults: u64,
}

impl FileDisk {
    ghost use Rattle.st_disk.specs.FileDisks.{file_faults};

    /// Opens the file of this name in the current folder, or makes it. No fault has come yet.
    pub fn open(rt: &HostRuntime, name: &str) -> io::Result<FileDisk>
        ensures { IfOk result (λ d. file_faults d ≡ 0) }
    {
        let file = OpenOptions::new()
            .read(true)
            .write(true)
            .create(true)
            .open(rt, name)?;
        let folder = File::open(rt, ".")?;
        Ok(FileDisk {
            file,
            folder: Some(folder),
            faults: 0,
        })
    }

    /// How many calls failed, at most 2^64-1.
    pub(crate) fn faults(&self) -> u64
        ensures { result ≡ file_faults self.now }
    {
        self.faults
    }

    /// Counts a fault, where the system answered one.
    fn told<T: Drop>(&mut self, answer: io::Result<T>) -> Result<T, DiskError>
        ensures cause { HasCause (file_faults self.old) (file_faults self.new) result }
        ensures same { IfOk result (λ x. answer ≡ Ok x) }
    {
        match answer {
            Ok(x) => Ok(x),
            Err(_) => {
                self.faults = self.faults.saturating_add(1);
                Err(DiskError::Failed)
            }
        }
    }
}

impl Disk for FileDisk {
    ghost use Rattle.st_disk.specs.FileDisks.{file_faults};

    ghost tells = { ⊥ };

    ghost counts_down = { ⊥ };

    ghost faults = { file_faults };

    ghost countdown = { λ _. None };

    ghost seen = { λ _. [] };

    ghost synced = { λ _. [] };

    ghost may_leave = { λ _ _. Unit {0} };

    ghost moment = { λ _. 0 };

    ghost left_since = { λ _ _ _. Unit {0} };

    ghost leaves_seen = { λ _. tt };

    ghost leaves_synced = { λ _. tt };

    ghost counts_now = { λ _ _ _ _ _. tt };

    ghost only_now = { λ _ _ _. tt };

    fn size(&mut self) -> Result<u64, DiskError> {
        let answer = self.file.metadata();
        match self.told(answer) {
            Ok(found) => Ok(found.len()),
            Err(e) => Err(e),
        }
    }

    fn read_at(&mut self, at: u64, piece: &mut [u8]) -> Result<usize, DiskError> {
        let answer = read_full(&self.file, at, piece);
        self.told(answer)
    }

    fn write_at(&mut self, at: u64, piece: &[u8]) -> Result<(), DiskError> {
        let answer = self.file.write_all_at(piece, at);
        self.told(answer)
    }

    fn cut(&mut self, size: u64) -> Result<(), DiskError> {
        let answer = self.file.set_len(size);
        self.told(answer)
    }

    fn sync(&mut self) -> Result<(), DiskError> {
        let answer = sync_all(&self.file, &self.folder);
        match self.told(answer) {
            Ok(()) => {
                self.folder = None;
                Ok(())
            }
            Err(e) => Err(e),
        }
    }
}

/// Brings a file onto the disk, and then its folder's entry of it, where a folder is given.
fn sync_all(file: &File, folder: &Option<File>) -> io::Result<()> {
    file.sync_all()?;
    match folder {
        Some(folder) => folder.sync_all(),
        None => Ok(()),
    }
}

/// Reads from offset `at` on until the piece is full or the file ends, and says how many bytes that were.
fn read_full(file: &File, at: u64, piece: &mut [u8]) -> io::Result<usize>
    ensures { IfOk result (λ n. n ≤ length piece.new) }
{
    let mut got = 0;
    while got < piece.len() {
        let count = file.read_at(&mut piece[got..], at.saturating_add(got as u64))?;
        if count == 0 {
            return Ok(got);
        }
        got += count;
    }
    Ok(got)
}
