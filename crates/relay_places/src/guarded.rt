//! A disk behind a lock. No other module changes the files of ledgers and desks, but for the lock's own.

ghost use Rattle.std.specs.Prelude.{◌≡◌, ◌+◌, IfOk, IsErrOf, IsTrue, string_bytes, take};
ghost use Rattle.std.specs.FinMap as map;
ghost use Rattle.dm_disk.specs.Disk.{KeepsAll, ReadsFile, Removes, Renames, SettlesFolder, Syncs, SyncsEntry, WritesFile, contents_in};
ghost use Rattle.relay_places.specs.Places.{Enters, Guards};

use crate::command_files::Entered;
use crate::lock::{Held, Lock};
use crate::place::Place;
use crate::system_disk::KeepsError;
use dm_disk::{Disk, Folders};
use dm_store::StoreFault;
use std::io;
use std::rt::Files;

/// A disk of which each call that changes a file takes the lock that guards it, and the place that both belong to. One
/// that reads wants that the command has come to its files. The calls are those of the disk within, and end as they do.
#[derive(Drop)]
pub(crate) struct Guarded<D> {
    disk: D,
}

impl<D> Guarded<D> {
    /// Puts a disk behind a lock.
    pub(crate) fn new(disk: D) -> Guarded<D>
        ensures { result.disk ≡ disk }
    {
        Guarded { disk }
    }
}

impl<D: KeepsError> Guarded<D> {
    /// Why the system refused a call last, if it has refused one.
    pub(crate) fn last_error(&self) -> Option<io::Error> {
        self.disk.last_error()
    }

    /// How many drafts of the new file that was saved last were there already.
    pub(crate) fn other_drafts(&self) -> u8 {
        self.disk.other_drafts()
    }
}

// What changes a file.
#[rattlefmt::skip]
impl<D: Disk> Guarded<D> {
    pub(crate) fn write(&mut self, place: &Place, lock: Held<'_>, name: &str, bytes: &[u8]) -> Result<(), StoreFault>
        requires { Guards place.now lock.path.now name.now }
        ensures honesty { (D.state self.new.disk).is_honest ≡ (D.state self.old.disk).is_honest }
        ensures refused { IsErrOf result StoreFault.Memory → KeepsAll (D.state self.old.disk) (D.state self.new.disk) }
        ensures writes { IsTrue (D.state self.old.disk).is_honest
            → WritesFile (D.state self.old.disk) name.now bytes.now result (D.state self.new.disk) }
    {
        self.disk.write(name, bytes)
    }

    pub(crate) fn rename(&mut self, place: &Place, lock: Held<'_>, from: &str, to: &str) -> Result<(), StoreFault>
        requires draft { Guards place.now lock.path.now from.now }
        requires file { Guards place.now lock.path.now to.now }
        ensures honesty { (D.state self.new.disk).is_honest ≡ (D.state self.old.disk).is_honest }
        ensures renames { IsTrue (D.state self.old.disk).is_honest
            → Renames (D.state self.old.disk) from.now to.now result (D.state self.new.disk) }
    {
        self.disk.rename(from, to)
    }

    pub(crate) fn remove(&mut self, place: &Place, lock: Held<'_>, name: &str) -> Result<(), StoreFault>
        requires { Guards place.now lock.path.now name.now }
        ensures honesty { (D.state self.new.disk).is_honest ≡ (D.state self.old.disk).is_honest }
        ensures removes { IsTrue (D.state self.old.disk).is_honest
            → Removes (D.state self.old.disk) name.now result (D.state self.new.disk) }
    {
        self.disk.remove(name)
    }
}

#[rattlefmt::skip]
impl<D: Folders> Guarded<D> {
    pub(crate) fn make_folder(&mut self, place: &Place, lock: Held<'_>, folder: &str) -> Result<(), StoreFault>
        requires { Guards place.now lock.path.now folder.now }
        ensures honesty { (D.state self.new.disk).is_honest ≡ (D.state self.old.disk).is_honest }
        ensures kept { KeepsAll (D.state self.old.disk) (D.state self.new.disk) }
    {
        self.disk.make_folder(folder)
    }
}

// What reads a file, or syncs it.
#[rattlefmt::skip]
impl<D: Disk> Guarded<D> {
    pub(crate) fn read(
        &mut self, place: &Place, entered: &Entered, name: &str, limit: usize,
    ) -> Result<Option<Vec<u8, D::Memory>>, StoreFault>
        requires { Enters place.now entered.now }
        ensures honesty { (D.state self.new.disk).is_honest ≡ (D.state self.old.disk).is_honest }
        ensures kept { KeepsAll (D.state self.old.disk) (D.state self.new.disk) }
        ensures reads { IsTrue (D.state self.old.disk).is_honest
            → ReadsFile (λ bytes. bytes.items) (D.state self.old.disk) name.now limit result }
    {
        self.disk.read(name, limit)
    }

    pub(crate) fn sync(&mut self, name: &str) -> Result<(), StoreFault>
        ensures honesty { (D.state self.new.disk).is_honest ≡ (D.state self.old.disk).is_honest }
        ensures syncs { IsTrue (D.state self.old.disk).is_honest
            → Syncs (D.state self.old.disk) name.now result (D.state self.new.disk) }
    {
        self.disk.sync(name)
    }

    pub(crate) fn sync_entry(&mut self, name: &str) -> Result<(), StoreFault>
        ensures honesty { (D.state self.new.disk).is_honest ≡ (D.state self.old.disk).is_honest }
        ensures kept { KeepsAll (D.state self.old.disk) (D.state self.new.disk) }
        ensures syncs { IsTrue (D.state self.old.disk).is_honest → SyncsEntry name.now result (D.state self.new.disk) }
    {
        self.disk.sync_entry(name)
    }

    pub(crate) fn settle_entry(&mut self, name: &str) -> Result<(), StoreFault>
        ensures honesty { (D.state self.new.disk).is_honest ≡ (D.state self.old.disk).is_honest }
        ensures kept { KeepsAll (D.state self.old.disk) (D.state self.new.disk) }
        ensures syncs { IsTrue (D.state self.old.disk).is_honest → SyncsEntry name.now result (D.state self.new.disk) }
    {
        self.disk.settle_entry(name)
    }
}

#[rattlefmt::skip]
impl<D: Folders> Guarded<D> {
    pub(crate) fn keys(
        &mut self, place: &Place, entered: &Entered, folder: &str, limit: usize,
    ) -> Result<Vec<u16, D::Memory>, StoreFault>
        requires { Enters place.now entered.now }
        ensures honesty { (D.state self.new.disk).is_honest ≡ (D.state self.old.disk).is_honest }
        ensures kept { KeepsAll (D.state self.old.disk) (D.state self.new.disk) }
        ensures lists { IsTrue (D.state self.old.disk).is_honest → IfOk result (λ keys.
            keys.items ≡ take (limit + 1) (map.keys (contents_in (D.state self.old.disk) folder.now))) }
    {
        self.disk.keys(folder, limit)
    }

    pub(crate) fn settle_folder(&mut self, folder: &str) -> Result<(), StoreFault>
        ensures honesty { (D.state self.new.disk).is_honest ≡ (D.state self.old.disk).is_honest }
        ensures kept { KeepsAll (D.state self.old.disk) (D.state self.new.disk) }
        ensures settles { IsTrue (D.state self.old.disk).is_honest
            → SettlesFolder folder.now result (D.state self.new.disk) }
    {
        self.disk.settle_folder(folder)
    }
}

/// Removes a draft that a stop has left a file as a second name. The lock was just taken.
pub(crate) fn remove_draft(rt: &HostRuntime, place: &Place, lock: &Lock, draft: &str)
    requires { Guards place.now (string_bytes lock.now.path) draft.now }
{
    let _ = rt.remove_file(draft);
}
