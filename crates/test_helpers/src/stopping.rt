//! A disk whose machine stops.

ghost use Rattle.std.specs.Prelude.{◌≡◌, IsErrOf, IsOk};

use dm_disk::{Disk, Folders};
use dm_store::{Kept, StoreFault};

/// A disk whose machine stops: its first calls are made. The next call, at which it stops, is made if it changes the
/// disk and [`Kept::New`] was asked for; it fails either way. Each later call fails and changes nothing.
///
/// It is proved a disk, and honest if the one within is. So what is proved over every disk holds whenever the machine
/// stops.
#[derive(Drop)]
pub struct Stopping<D> {
    disk: D,
    // How many calls are still made, or `None` once the machine has stopped.
    left: Option<u32>,
    kept: Kept,
}

// What becomes of a call that changes the disk, unless the machine has stopped.
#[derive(Clone, Copy)]
enum Turn {
    Passes,
    Made,
}

impl Turn {
    // The answer to a call that is made: the machine may stop within it.
    fn answer(self, made: Result<(), StoreFault>) -> Result<(), StoreFault>
        ensures ok { IsOk result → IsOk made }
        ensures memory { IsErrOf result StoreFault.Memory → IsErrOf made StoreFault.Memory }
    {
        match self {
            Turn::Passes => made,
            Turn::Made => Err(StoreFault::Device),
        }
    }
}

impl<D> Stopping<D> {
    /// A disk whose machine stops at the call after the first `passes`.
    pub fn new(disk: D, passes: u32, kept: Kept) -> Stopping<D>
        ensures { result.disk ≡ disk }
    {
        Stopping {
            disk,
            left: Some(passes),
            kept,
        }
    }

    /// The disk within, as the stop left it.
    pub fn into_inner(self) -> D
        ensures { result ≡ self.disk }
    {
        self.disk
    }
}

// Counts a call.
fn take(left: &mut Option<u32>, kept: Kept) -> Result<Turn, StoreFault> {
    let before = *left;
    *left = match before {
        Some(calls) => calls.checked_sub(1),
        None => None,
    };
    match before {
        Some(0) if kept == Kept::New => Ok(Turn::Made),
        Some(0) | None => Err(StoreFault::Device),
        Some(_) => Ok(Turn::Passes),
    }
}

impl<D: Disk> Disk for Stopping<D> {
    type Memory = D::Memory;

    ghost state = { λ stopping. D.state stopping.disk };

    fn read(&mut self, name: &str, limit: usize) -> Result<Option<Vec<u8, D::Memory>>, StoreFault> {
        match take(&mut self.left, self.kept) {
            Ok(Turn::Passes) => self.disk.read(name, limit),
            Ok(Turn::Made) | Err(_) => Err(StoreFault::Device),
        }
    }

    fn write(&mut self, name: &str, bytes: &[u8]) -> Result<(), StoreFault> {
        let turn = take(&mut self.left, self.kept)?;
        turn.answer(self.disk.write(name, bytes))
    }

    fn sync(&mut self, name: &str) -> Result<(), StoreFault> {
        let turn = take(&mut self.left, self.kept)?;
        turn.answer(self.disk.sync(name))
    }

    fn rename(&mut self, from: &str, to: &str) -> Result<(), StoreFault> {
        let turn = take(&mut self.left, self.kept)?;
        turn.answer(self.disk.rename(from, to))
    }

    fn remove(&mut self, name: &str) -> Result<(), StoreFault> {
        let turn = take(&mut self.left, self.kept)?;
        turn.answer(self.disk.remove(name))
    }

    fn sync_entry(&mut self, name: &str) -> Result<(), StoreFault> {
        let turn = take(&mut self.left, self.kept)?;
        turn.answer(self.disk.sync_entry(name))
    }

    fn settle_entry(&mut self, name: &str) -> Result<(), StoreFault> {
        let turn = take(&mut self.left, self.kept)?;
        turn.answer(self.disk.settle_entry(name))
    }
}

impl<D: Folders> Folders for Stopping<D> {
    fn make_folder(&mut self, folder: &str) -> Result<(), StoreFault> {
        let turn = take(&mut self.left, self.kept)?;
        turn.answer(self.disk.make_folder(folder))
    }

    fn keys(&mut self, folder: &str, limit: usize) -> Result<Vec<u16, D::Memory>, StoreFault> {
        match take(&mut self.left, self.kept) {
            Ok(Turn::Passes) => self.disk.keys(folder, limit),
            Ok(Turn::Made) | Err(_) => Err(StoreFault::Device),
        }
    }

    fn settle_folder(&mut self, folder: &str) -> Result<(), StoreFault> {
        let turn = take(&mut self.left, self.kept)?;
        turn.answer(self.disk.settle_folder(folder))
    }
}
