//! A disk: one file that a crash may cut back to its last sync, with anything between, and what a server
//! of a deployment keeps its journal on.
#![tactic(auto)]

mod call;
mod countdown;
mod counts;
mod disk;
mod disks;
mod error;
mod file;
mod file_disks;
mod memory;
mod memory_disks;
mod worn;

pub use disk::Disk;
pub use disks::Disks;
pub use error::DiskError;
pub use file::FileDisk;
pub use file_disks::FileDisks;
pub use memory::MemoryDisk;
pub use memory_disks::MemoryDisks;
pub use worn::WornDisk;
