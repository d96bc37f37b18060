//! A store in a file of a disk.

ghost use Rattle.std.specs.Prelude.{◌≡◌, ◌≢◌, ℕ, List, None, Some, Err, IsOk, IsErrOf, IsTrue};
ghost use Rattle.dm_disk.specs.Disk.{KeepsFile, KeepsAll, KeepsName, SavesFile, IsFileSettled, IsSettled, draft_of, Content, saved_under};
ghost use Rattle.dm_store.specs.Saved.{Loads, Settles, Replaces, MayLackMemory, SavesOpen, HeldAfterFault};

use crate::disk::Disk;
use crate::filed::{AtFile, Filed};
use crate::key_files::with_end;
use dm_store::{Store, StoreFault};
use std::alloc::Allocator;

// Puts the draft, which was just written, in the place of the file at `path`.
fn put_in_place<D: Disk>(disk: &mut D, path: &str, draft: &str) -> Result<(), StoreFault>
    requires { path.now ≢ draft.now }
    ensures honesty { (D.state disk.new).is_honest ≡ (D.state disk.old).is_honest }
    ensures saves { IsTrue (D.state disk.old).is_honest
        → (bytes : List ℕ) → (D.state disk.old).seen draft.now ≡ Some bytes
        → SavesFile (D.state disk.old) path.now draft.now (Some bytes) result (D.state disk.new) }
    ensures keeps { IsTrue (D.state disk.old).is_honest
        → KeepsName (D.state disk.old) path.now result (D.state disk.new) }
{
    disk.sync(draft)?;
    disk.rename(draft, path)?;
    disk.sync_entry(path)
}

// Takes the draft of a save that met a fault away, if that can be done, and answers the fault.
fn drop_draft<D: Disk>(disk: &mut D, draft: &str) -> Result<(), StoreFault>
    ensures fault { result ≡ Err StoreFault.Device }
    ensures honesty { (D.state disk.new).is_honest ≡ (D.state disk.old).is_honest }
    ensures others { IsTrue (D.state disk.old).is_honest → (other : List ℕ) → other ≢ draft.now
        → KeepsFile (D.state disk.old) other (D.state disk.new) }
{
    let _ = disk.remove(draft);
    Err(StoreFault::Device)
}

// Puts the bytes into the file at `path` by way of a draft.
pub(crate) fn replace_file<D: Disk>(
    disk: &mut D,
    path: &str,
    draft: &str,
    bytes: &[u8],
) -> Result<(), StoreFault>
    requires { path.now ≢ draft.now }
    ensures honesty { (D.state disk.new).is_honest ≡ (D.state disk.old).is_honest }
    ensures refused { IsErrOf result StoreFault.Memory → KeepsAll (D.state disk.old) (D.state disk.new) }
    ensures saves { IsTrue (D.state disk.old).is_honest
        → SavesFile (D.state disk.old) path.now draft.now (Some bytes.now) result (D.state disk.new) }
    ensures keeps { IsTrue (D.state disk.old).is_honest
        → KeepsName (D.state disk.old) path.now result (D.state disk.new) }
{
    match disk.write(draft, bytes) {
        Ok(()) => {}
        Err(StoreFault::Device) => return drop_draft(disk, draft),
        Err(StoreFault::Memory) => return Err(StoreFault::Memory),
    }
    match put_in_place(disk, path, draft) {
        Ok(()) => Ok(()),
        Err(_) => drop_draft(disk, draft),
    }
}

// Takes the file at `path` away, and before it a draft that a stop has left.
pub(crate) fn remove_file<D: Disk>(disk: &mut D, path: &str, draft: &str) -> Result<(), StoreFault>
    requires { path.now ≢ draft.now }
    ensures honesty { (D.state disk.new).is_honest ≡ (D.state disk.old).is_honest }
    ensures removes { IsTrue (D.state disk.old).is_honest
        → SavesFile (D.state disk.old) path.now draft.now None result (D.state disk.new) }
    ensures no_draft { IsTrue (D.state disk.old).is_honest → IsOk result → (D.state disk.new).seen draft.now ≡ None }
{
    disk.remove(draft)?;
    disk.remove(path)?;
    disk.sync_entry(path)
}

impl<D: Disk, A: Allocator> Store for Filed<D, AtFile, A> {
    type Memory = D::Memory;

    ghost state = { λ f. saved_under (D.state f.disk) f.path };

    ghost is_settled = { λ f. IsFileSettled (D.state f.disk) f.path };

    fn load(&mut self, limit: usize) -> Result<Option<Vec<u8, D::Memory>>, StoreFault>
        ensures loads { Loads (λ bytes. bytes.items)
            (saved_under (D.state self.old.disk) self.old.path) limit result
            (saved_under (D.state self.new.disk) self.new.path) }
        ensures path { self.new.path ≡ self.old.path }
        ensures kept { KeepsAll (D.state self.old.disk) (D.state self.new.disk) }
    {
        self.disk.read(self.path.as_str(), limit)
    }

    fn settle(&mut self) -> Result<(), StoreFault>
        ensures settles { Settles (saved_under (D.state self.old.disk) self.old.path) result
            (saved_under (D.state self.new.disk) self.new.path) }
        ensures path { self.new.path ≡ self.old.path }
        ensures kept { KeepsAll (D.state self.old.disk) (D.state self.new.disk) }
        ensures settled { IsOk result → IsFileSettled (D.state self.new.disk) self.new.path }
    {
        self.disk.settle_entry(self.path.as_str())
    }

    fn replace(&mut self, bytes: &[u8]) -> Result<(), StoreFault>
        ensures replaces { Replaces (saved_under (D.state self.old.disk) self.old.path) bytes.now
            result (saved_under (D.state self.new.disk) self.new.path) }
        ensures memory { MayLackMemory (saved_under (D.state self.old.disk) self.old.path) result }
        ensures settled { IsOk result → IsFileSettled (D.state self.new.disk) self.new.path }
        ensures path { self.new.path ≡ self.old.path }
        ensures refused { IsErrOf result StoreFault.Memory
            → KeepsAll (D.state self.old.disk) (D.state self.new.disk) }
        // Whenever the machine stops, in this save or after it, the old content is left or the new, and the new once it
        // is done. No file but this one and its draft is touched.
        ensures saves { IsTrue (D.state self.old.disk).is_honest
            → SavesFile (D.state self.old.disk) self.old.path (draft_of self.old.path) (Some bytes.now)
            result (D.state self.new.disk) }
        // Where the disk keeps the name, the save takes the place of no file.
        ensures keeps { IsTrue (D.state self.old.disk).is_honest
            → KeepsName (D.state self.old.disk) self.old.path result (D.state self.new.disk) }
        // If no stop would have taken back what a reader found, a stop leaves what a store under an open plan may hold.
        ensures old_or_new { IsTrue (D.state self.old.disk).is_honest → IsSettled (D.state self.old.disk) self.old.path
            → (content : Content) → (D.state self.new.disk).may_leave self.old.path content
            → HeldAfterFault SavesOpen ((D.state self.old.disk).seen self.old.path) (Some bytes.now) content }
    {
        let draft = with_end(self.path.as_str(), ".new")?;
        replace_file(&mut self.disk, self.path.as_str(), draft.as_str(), bytes)
    }
}
