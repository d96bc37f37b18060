//! A disk that keeps names.

ghost use Rattle.std.specs.Prelude.{◌≡◌};
ghost use Rattle.test_helpers.specs.Keeping.{keeping_names};

use dm_disk::Disk;
use dm_store::StoreFault;

/// A disk of which no rename takes the place of a file: it looks first. It is proved a disk that keeps all names, so that
/// a save over it puts a file only where none was.
#[derive(Drop)]
pub struct KeepingNames<D> {
    disk: D,
}

impl<D> KeepingNames<D> {
    /// A disk over this one.
    pub fn new(disk: D) -> KeepingNames<D>
        ensures { result.disk ≡ disk }
    {
        KeepingNames { disk }
    }
}

#[rattlefmt::skip] // most calls are those of the disk within
impl<D: Disk> Disk for KeepingNames<D> {
    type Memory = D::Memory;

    ghost state = { λ keeping. keeping_names (D.state keeping.disk) };

    fn read(&mut self, name: &str, limit: usize) -> Result<Option<Vec<u8, D::Memory>>, StoreFault> {
        self.disk.read(name, limit)
    }

    fn write(&mut self, name: &str, bytes: &[u8]) -> Result<(), StoreFault> { self.disk.write(name, bytes) }
    fn sync(&mut self, name: &str) -> Result<(), StoreFault> { self.disk.sync(name) }

    fn rename(&mut self, from: &str, to: &str) -> Result<(), StoreFault> {
        if self.disk.read(to, 0)?.is_some() {
            return Err(StoreFault::Device);
        }
        self.disk.rename(from, to)
    }

    fn remove(&mut self, name: &str) -> Result<(), StoreFault> { self.disk.remove(name) }
    fn sync_entry(&mut self, name: &str) -> Result<(), StoreFault> { self.disk.sync_entry(name) }
    fn settle_entry(&mut self, name: &str) -> Result<(), StoreFault> { self.disk.settle_entry(name) }
}
