//! A set of stores in a folder of a disk, with a file for each key.

ghost use Rattle.std.specs.Prelude.{◌≡◌, ◌<◌, ◌≢◌, ◌^◌, ℕ, None, Some, Err, IsErr, IsOk, IsErrOf, IsTrue};
ghost use Rattle.dm_disk.specs.Disk.{KeepsFile, KeepsAll, SavesFile, IsFolderSettled, draft_of, key_path, set_in};
ghost use Rattle.dm_store.specs.Saved.{ListsKeys, LoadsKey, Settles, SavesKey, RemovesKey, MayLackMemory};

use crate::disk::{Disk, Folders};
use crate::file_store::{remove_file, replace_file};
use crate::filed::{AtFolder, Filed};
use crate::key_files::{path_of, with_end};
use dm_store::{StoreFault, StoreSet};
use std::alloc::Allocator;

// Makes the folder, unless that was done.
fn make_once<D: Folders>(disk: &mut D, is_made: &mut bool, folder: &str) -> Result<(), StoreFault>
    ensures honesty { (D.state disk.new).is_honest ≡ (D.state disk.old).is_honest }
    ensures kept { KeepsAll (D.state disk.old) (D.state disk.new) }
{
    if !*is_made {
        disk.make_folder(folder)?;
        *is_made = true;
    }
    Ok(())
}

// Puts the bytes into the file of a key, in a folder that is there then.
fn replace_key<D: Folders>(
    disk: &mut D,
    is_made: &mut bool,
    folder: &str,
    key: u16,
    bytes: &[u8],
) -> Result<(), StoreFault>
    ensures honesty { (D.state disk.new).is_honest ≡ (D.state disk.old).is_honest }
    ensures refused { IsErrOf result StoreFault.Memory → KeepsAll (D.state disk.old) (D.state disk.new) }
    ensures saves { IsTrue (D.state disk.old).is_honest
        → SavesFile (D.state disk.old) (key_path folder.now key) (draft_of (key_path folder.now key)) (Some bytes.now)
        result (D.state disk.new) }
{
    let path = path_of(folder, key)?;
    let draft = with_end(path.as_str(), ".new")?;
    make_once(disk, is_made, folder)?;
    replace_file(disk, path.as_str(), draft.as_str(), bytes)
}

// Takes the file of a key away.
fn remove_key<D: Disk>(disk: &mut D, folder: &str, key: u16) -> Result<(), StoreFault>
    ensures honesty { (D.state disk.new).is_honest ≡ (D.state disk.old).is_honest }
    ensures device { IsErr result → result ≡ Err StoreFault.Device }
    ensures removes { IsTrue (D.state disk.old).is_honest
        → SavesFile (D.state disk.old) (key_path folder.now key) (draft_of (key_path folder.now key)) None result
        (D.state disk.new) }
    ensures no_draft { IsTrue (D.state disk.old).is_honest → IsOk result
        → (D.state disk.new).seen (draft_of (key_path folder.now key)) ≡ None }
{
    let path = path_of(folder, key)?;
    let draft = with_end(path.as_str(), ".new")?;
    match remove_file(disk, path.as_str(), draft.as_str()) {
        Ok(()) => Ok(()),
        Err(_) => Err(StoreFault::Device),
    }
}

impl<D: Folders, A: Allocator> StoreSet for Filed<D, AtFolder, A> {
    type Memory = D::Memory;

    type Settled = ();

    ghost state = { λ f. set_in (D.state f.disk) f.path };

    ghost is_settled = { λ f. IsFolderSettled (D.state f.disk) f.path };

    fn keys(&mut self, limit: usize) -> Result<Vec<u16, D::Memory>, StoreFault>
        ensures lists { ListsKeys (λ keys. keys.items)
            (set_in (D.state self.old.disk) self.old.path) limit result
            (set_in (D.state self.new.disk) self.new.path) }
        ensures folder { self.new.path ≡ self.old.path }
        ensures kept { KeepsAll (D.state self.old.disk) (D.state self.new.disk) }
    {
        let keys = self.disk.keys(self.path.as_str(), limit);
        // A save of a key comes after the folder's own entry was brought to the disk.
        self.kind.is_made |= matches!(&keys, Ok(keys) if !keys.is_empty());
        keys
    }

    fn load(&mut self, key: u16, limit: usize) -> Result<Option<Vec<u8, D::Memory>>, StoreFault>
        ensures loads { LoadsKey (λ bytes. bytes.items)
            (set_in (D.state self.old.disk) self.old.path) key limit result
            (set_in (D.state self.new.disk) self.new.path) }
        ensures folder { self.new.path ≡ self.old.path }
        ensures kept { KeepsAll (D.state self.old.disk) (D.state self.new.disk) }
    {
        let path = path_of(self.path.as_str(), key)?;
        self.disk.read(path.as_str(), limit)
    }

    fn settle(&mut self) -> Result<(), StoreFault>
        ensures settles { Settles (set_in (D.state self.old.disk) self.old.path) result
            (set_in (D.state self.new.disk) self.new.path) }
        ensures folder { self.new.path ≡ self.old.path }
        ensures kept { KeepsAll (D.state self.old.disk) (D.state self.new.disk) }
        ensures settled { IsOk result → IsFolderSettled (D.state self.new.disk) self.new.path }
    {
        self.disk.settle_folder(self.path.as_str())
    }

    fn replace(&mut self, key: u16, bytes: &[u8]) -> Result<(), StoreFault>
        ensures replaces { SavesKey (set_in (D.state self.old.disk) self.old.path) key bytes.now
            result (set_in (D.state self.new.disk) self.new.path) }
        ensures memory { MayLackMemory (set_in (D.state self.old.disk) self.old.path) result }
        ensures folder { self.new.path ≡ self.old.path }
        ensures refused { IsErrOf result StoreFault.Memory
            → KeepsAll (D.state self.old.disk) (D.state self.new.disk) }
        // Whenever the machine stops, in this save or after it, the old content of the key is left or the new, and the
        // new once it is done. No file but the key's and its draft is touched.
        ensures saves { IsTrue (D.state self.old.disk).is_honest
            → SavesFile (D.state self.old.disk) (key_path self.old.path key)
            (draft_of (key_path self.old.path key)) (Some bytes.now) result (D.state self.new.disk) }
        ensures others { IsTrue (D.state self.old.disk).is_honest → (other : ℕ) → other < 2 ^ 16 → other ≢ key
            → KeepsFile (D.state self.old.disk) (key_path self.old.path other) (D.state self.new.disk) }
    {
        let is_made = &mut self.kind.is_made;
        replace_key(&mut self.disk, is_made, self.path.as_str(), key, bytes)
    }

    fn remove(&mut self, key: u16) -> Result<(), StoreFault>
        ensures removes { RemovesKey (set_in (D.state self.old.disk) self.old.path) key result
            (set_in (D.state self.new.disk) self.new.path) }
        ensures folder { self.new.path ≡ self.old.path }
        // It is never refused for lack of memory.
        ensures device { IsErr result → result ≡ Err StoreFault.Device }
        // Whenever the machine stops, in this remove or after it, the old content of the key is left or none, and none
        // once it is done. No file but the key's and its draft is touched.
        ensures file { IsTrue (D.state self.old.disk).is_honest
            → SavesFile (D.state self.old.disk) (key_path self.old.path key)
            (draft_of (key_path self.old.path key)) None result (D.state self.new.disk) }
        ensures no_draft { IsTrue (D.state self.old.disk).is_honest → IsOk result
            → (D.state self.new.disk).seen (draft_of (key_path self.old.path key)) ≡ None }
        ensures others { IsTrue (D.state self.old.disk).is_honest → (other : ℕ) → other < 2 ^ 16 → other ≢ key
            → KeepsFile (D.state self.old.disk) (key_path self.old.path other) (D.state self.new.disk) }
    {
        remove_key(&mut self.disk, self.path.as_str(), key)
    }
}
