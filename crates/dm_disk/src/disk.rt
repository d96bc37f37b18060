//! What a store in a file asks of the disk below it.

ghost use Rattle.std.specs.Prelude.{◌≡◌, ℕ, List, IsTrue, IsErrOf, ◌+◌, IfOk, take};
ghost use Rattle.dm_disk.specs.Disk.{DiskState, KeepsAll, ReadsFile, WritesFile, Syncs, Renames, Removes, SyncsEntry, contents_in, SettlesFolder};
ghost use Rattle.std.specs.FinMap as map;

use dm_store::StoreFault;
use std::alloc::Allocator;

/// The calls of a file system that a save needs. Each may fail. Once the machine has stopped, within a call or between
/// two, each later call fails and changes nothing.
pub trait Disk: Drop {
    /// What the bytes that a read gives are allocated in.
    type Memory: Allocator;

    /// Whether it is honest, what a reader finds, and what a stop may leave.
    ghost state: { Self → DiskState };

    /// The bytes of the file under a name, or their first `limit + 1` if they are longer, or `None` if no file is
    /// there.
    fn read(
        &mut self,
        name: &str,
        limit: usize,
    ) -> Result<Option<Vec<u8, Self::Memory>>, StoreFault>
        ensures honesty { (state self.new).is_honest ≡ (state self.old).is_honest }
        ensures kept { KeepsAll (state self.old) (state self.new) }
        ensures reads { IsTrue (state self.old).is_honest
            → ReadsFile (λ bytes. bytes.items) (state self.old) name.now limit result };

    /// Makes a file under the name, in place of what is there, and writes the bytes to it.
    fn write(&mut self, name: &str, bytes: &[u8]) -> Result<(), StoreFault>
        ensures honesty { (state self.new).is_honest ≡ (state self.old).is_honest }
        ensures refused { IsErrOf result StoreFault.Memory → KeepsAll (state self.old) (state self.new) }
        ensures writes { IsTrue (state self.old).is_honest
            → WritesFile (state self.old) name.now bytes.now result (state self.new) };

    /// Brings the bytes of the file to the disk. A sync that fails may lose those that were not there before.
    fn sync(&mut self, name: &str) -> Result<(), StoreFault>
        ensures honesty { (state self.new).is_honest ≡ (state self.old).is_honest }
        ensures syncs { IsTrue (state self.old).is_honest
            → Syncs (state self.old) name.now result (state self.new) };

    /// Gives the file under `from` the name `to`, in place of the file that had it; if the disk keeps that name, it
    /// fails where a file has it.
    fn rename(&mut self, from: &str, to: &str) -> Result<(), StoreFault>
        ensures honesty { (state self.new).is_honest ≡ (state self.old).is_honest }
        ensures renames { IsTrue (state self.old).is_honest
            → Renames (state self.old) from.now to.now result (state self.new) };

    /// Takes the name away from the file that has it. It is done, too, if no file has it.
    fn remove(&mut self, name: &str) -> Result<(), StoreFault>
        ensures honesty { (state self.new).is_honest ≡ (state self.old).is_honest }
        ensures removes { IsTrue (state self.old).is_honest
            → Removes (state self.old) name.now result (state self.new) };

    /// Brings the entry of the name in its folder to the disk, or the want of one. The folder's own entry is not
    /// brought there.
    fn sync_entry(&mut self, name: &str) -> Result<(), StoreFault>
        ensures honesty { (state self.new).is_honest ≡ (state self.old).is_honest }
        ensures kept { KeepsAll (state self.old) (state self.new) }
        ensures syncs { IsTrue (state self.old).is_honest
            → SyncsEntry name.now result (state self.new) };

    /// The same for what a reader found, which a file system that can't sync folders keeps as it can: that is no fault.
    fn settle_entry(&mut self, name: &str) -> Result<(), StoreFault>
        ensures honesty { (state self.new).is_honest ≡ (state self.old).is_honest }
        ensures kept { KeepsAll (state self.old) (state self.new) }
        ensures syncs { IsTrue (state self.old).is_honest
            → SyncsEntry name.now result (state self.new) }
    {
        self.sync_entry(name)
    }
}

/// The calls that a set in a folder needs beside those of its files.
pub trait Folders: Disk {
    /// Makes the folder, if it isn't there, and brings its entry in the folder above it to the disk in either case.
    /// What is said of the files in it rests on that.
    fn make_folder(&mut self, folder: &str) -> Result<(), StoreFault>
        ensures honesty { (Self.state self.new).is_honest ≡ (Self.state self.old).is_honest }
        ensures kept { KeepsAll (Self.state self.old) (Self.state self.new) };

    /// The keys that have a file in the folder, rising: all, or the first `limit + 1` where there are more. A folder
    /// that isn't there has none.
    fn keys(&mut self, folder: &str, limit: usize) -> Result<Vec<u16, Self::Memory>, StoreFault>
        ensures honesty { (Self.state self.new).is_honest ≡ (Self.state self.old).is_honest }
        ensures kept { KeepsAll (Self.state self.old) (Self.state self.new) }
        ensures lists { IsTrue (Self.state self.old).is_honest → IfOk result (λ keys.
            keys.items ≡ take (limit + 1) (map.keys (contents_in (Self.state self.old) folder.now))) };

    /// Settles the entries of the files of all keys in the folder, as [`Disk::settle_entry`] does with one. A folder
    /// that isn't there has none.
    fn settle_folder(&mut self, folder: &str) -> Result<(), StoreFault>
        ensures honesty { (Self.state self.new).is_honest ≡ (Self.state self.old).is_honest }
        ensures kept { KeepsAll (Self.state self.old) (Self.state self.new) }
        ensures settles { IsTrue (Self.state self.old).is_honest
            → SettlesFolder folder.now result (Self.state self.new) };
}
