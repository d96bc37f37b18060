//! A machine with a disk in memory, which all stores of a command share, and which stops after a number of calls.

use crate::left_files::{Files, STORE, files_on};
use dm_disk::{Disk, Folders};
use dm_store::{Kept, StoreFault};
use std::alloc::Global;
use std::cell::{RefCell, RefMut};
use test_helpers::{MemDisk, Stopping};

/// More calls of its disk than a command makes.
pub const MOST_CALLS: u32 = 40;

/// The disk of a machine that stops, and the files that were on it at first.
#[derive(Drop)]
pub struct Machine {
    disk: RefCell<Stopping<MemDisk>>,
    old: Files,
}

impl Machine {
    /// A machine that stops at the call of its disk after the first `passes`; with `u32::MAX` it does not stop.
    pub fn new(
        alloc: Global,
        mut disk: MemDisk,
        passes: u32,
        kept: Kept,
    ) -> Result<Machine, StoreFault> {
        let old = files_on(alloc, &mut disk)?;
        let disk = RefCell::new(Stopping::new(disk, passes, kept));
        Ok(Machine { disk, old })
    }

    /// Its disk, lent to a store.
    pub fn disk(&self) -> SharedDisk<'_, Stopping<MemDisk>> {
        SharedDisk { disk: &self.disk }
    }

    /// Whether it has stopped, or stops at this call.
    pub fn has_stopped(&self) -> bool {
        self.disk().read(STORE, 0).is_err()
    }

    /// The disk, as the stop left it, and the files that were on it at first.
    pub fn into_disk(self) -> (MemDisk, Files) {
        (self.disk.into_inner().into_inner(), self.old)
    }
}

/// A disk that several stores have. It claims nothing, since no contract sees into a cell.
#[derive(Drop)]
pub struct SharedDisk<'a, D> {
    disk: &'a RefCell<D>,
}

impl<'a, D> SharedDisk<'a, D> {
    // The disk, for a call.
    fn lent(&self) -> Result<RefMut<'a, D>, StoreFault> {
        self.disk.try_borrow_mut().or(Err(StoreFault::Device))
    }
}

#[rattlefmt::skip]
impl<D: Disk> Disk for SharedDisk<'_, D> {
    ghost use Rattle.dm_disk.specs.Disk.{unclaimed};

    type Memory = D::Memory;

    ghost state = { λ _. unclaimed };

    fn read(&mut self, name: &str, limit: usize) -> Result<Option<Vec<u8, D::Memory>>, StoreFault> {
        self.lent()?.read(name, limit)
    }
    fn write(&mut self, name: &str, bytes: &[u8]) -> Result<(), StoreFault> { self.lent()?.write(name, bytes) }
    fn sync(&mut self, name: &str) -> Result<(), StoreFault> { self.lent()?.sync(name) }
    fn rename(&mut self, from: &str, to: &str) -> Result<(), StoreFault> { self.lent()?.rename(from, to) }
    fn remove(&mut self, name: &str) -> Result<(), StoreFault> { self.lent()?.remove(name) }
    fn sync_entry(&mut self, name: &str) -> Result<(), StoreFault> { self.lent()?.sync_entry(name) }
}

#[rattlefmt::skip]
impl<D: Folders> Folders for SharedDisk<'_, D> {
    fn make_folder(&mut self, folder: &str) -> Result<(), StoreFault> { self.lent()?.make_folder(folder) }

    fn keys(&mut self, folder: &str, limit: usize) -> Result<Vec<u16, D::Memory>, StoreFault> {
        self.lent()?.keys(folder, limit)
    }
    fn settle_folder(&mut self, folder: &str) -> Result<(), StoreFault> { self.lent()?.settle_folder(folder) }
}
