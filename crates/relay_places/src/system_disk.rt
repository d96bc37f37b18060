//! The system's disk, as one type without parameters.

ghost use Rattle.dm_disk.specs.Disk.{unclaimed};

use dm_disk::{Disk, Folders, RealDisk};
use dm_store::StoreFault;
use std::alloc::Global;
use std::io;

/// The disk of the program's runtime. A proof that names its calls need not name those of the runtime each time.
#[derive(Drop)]
pub struct SystemDisk<'a>(RealDisk<'a, HostRuntime>);

impl<'a> SystemDisk<'a> {
    /// The system's files.
    pub(crate) fn new(rt: &'a HostRuntime) -> SystemDisk<'a> {
        SystemDisk(RealDisk::new(rt.alloc(), rt))
    }

    /// The same files, of which none takes the place of another, and none is removed that was not made here.
    pub(crate) fn of_new_files(rt: &'a HostRuntime) -> SystemDisk<'a> {
        SystemDisk(RealDisk::of_new_files(rt.alloc(), rt))
    }
}

/// A disk that keeps why the system refused a call.
pub(crate) trait KeepsError {
    /// Why the system refused a call last, if it has refused one.
    fn last_error(&self) -> Option<io::Error>;

    /// How many drafts of the new file that was saved last were there already.
    fn other_drafts(&self) -> u8;
}

impl KeepsError for SystemDisk<'_> {
    fn last_error(&self) -> Option<io::Error> {
        self.0.last_error()
    }

    fn other_drafts(&self) -> u8 {
        self.0.other_drafts()
    }
}

// Each call is that of the disk within.
#[rattlefmt::skip]
impl Disk for SystemDisk<'_> {
    type Memory = Global;

    ghost state = { λ _. unclaimed };

    fn read(&mut self, name: &str, limit: usize) -> Result<Option<Vec<u8>>, StoreFault> { self.0.read(name, limit) }
    fn write(&mut self, name: &str, bytes: &[u8]) -> Result<(), StoreFault> { self.0.write(name, bytes) }
    fn sync(&mut self, name: &str) -> Result<(), StoreFault> { self.0.sync(name) }
    fn rename(&mut self, from: &str, to: &str) -> Result<(), StoreFault> { self.0.rename(from, to) }
    fn remove(&mut self, name: &str) -> Result<(), StoreFault> { self.0.remove(name) }
    fn sync_entry(&mut self, name: &str) -> Result<(), StoreFault> { self.0.sync_entry(name) }
    fn settle_entry(&mut self, name: &str) -> Result<(), StoreFault> { self.0.settle_entry(name) }
}

#[rattlefmt::skip]
impl Folders for SystemDisk<'_> {
    fn make_folder(&mut self, folder: &str) -> Result<(), StoreFault> { self.0.make_folder(folder) }
    fn keys(&mut self, folder: &str, limit: usize) -> Result<Vec<u16>, StoreFault> { self.0.keys(folder, limit) }
    fn settle_folder(&mut self, folder: &str) -> Result<(), StoreFault> { self.0.settle_folder(folder) }
}
