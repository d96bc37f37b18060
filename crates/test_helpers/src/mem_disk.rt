//! A disk in memory.

ghost use Rattle.std.specs.Prelude.{◌≡◌, ◌+◌, take, ◌∷◌, [], option_map, IfOk, OnOk, OnErr, IsErrOf};
ghost use Rattle.std.specs.String.{string_bytes};
ghost use Rattle.std.specs.Option.{option_eq};
ghost use Rattle.std.specs.Str.{bytes_eq};
ghost use Rattle.test_helpers.specs.DiskCalls.{seen_after, synced_after, leaves_after};

use dm_disk::Disk;
use dm_store::StoreFault;
use std::alloc::{Allocator, Global};

/// A call of a disk that was done.
#[derive(Drop)]
pub enum DiskCall<A: Allocator = Global> {
    /// Bytes were written to the file under a name.
    Wrote(String<A>, Vec<u8, A>),
    /// The bytes of a file were brought to the disk.
    Synced(String<A>),
    /// The file under the first name got the second.
    Renamed(String<A>, String<A>),
    /// The file under a name, or none, was taken away.
    Removed(String<A>),
    /// A name's entry was brought to the disk.
    SyncedEntry(String<A>),
    /// The entries of all names that begin so were brought to the disk.
    SyncedFolder(String<A>),
}

/// A disk in memory, which is empty at first. It keeps the calls that were done, the newest first. A stop may leave
/// there all that the contract lets a stop leave after calls that were done. Of a call that fails the contract allows
/// more: here it changes nothing. And after a rename nothing has the file's old name here.
#[derive(Drop)]
pub struct MemDisk<A: Allocator + Copy = Global> {
    pub(crate) alloc: A,
    pub(crate) calls: Vec<DiskCall<A>, A>,
}

// What a reader finds under the name.
pub(crate) fn seen_in<'a, A: Allocator>(calls: &'a [DiskCall<A>], name: &str) -> Option<&'a [u8]>
    ensures { option_map (λ bytes. bytes.now) result ≡ seen_after calls.now name.now }
{
    let [call, before @ ..] = calls else {
        return None;
    };
    match call {
        DiskCall::Wrote(written, bytes) if written.as_str() == name => Some(bytes.as_slice()),
        DiskCall::Renamed(from, to) if to.as_str() == name => seen_in(before, from.as_str()),
        DiskCall::Renamed(from, _) if from.as_str() == name => None,
        DiskCall::Removed(removed) if removed.as_str() == name => None,
        _ => seen_in(before, name),
    }
}

// Whether the bytes of the file under the name are on the disk.
fn is_synced_in<A: Allocator>(calls: &[DiskCall<A>], name: &str) -> bool
    ensures { result ≡ synced_after calls.now name.now }
{
    let [call, before @ ..] = calls else {
        return true;
    };
    match call {
        DiskCall::Wrote(written, _) if written.as_str() == name => false,
        DiskCall::Synced(synced) if synced.as_str() == name => true,
        DiskCall::Removed(removed) if removed.as_str() == name => true,
        DiskCall::Renamed(from, to) if to.as_str() == name => is_synced_in(before, from.as_str()),
        _ => is_synced_in(before, name),
    }
}

fn is_same(content: Option<&[u8]>, other: Option<&[u8]>) -> bool
    ensures { result ≡ option_eq bytes_eq
        (option_map (λ bytes. bytes.now) content.entry) (option_map (λ bytes. bytes.now) other.entry) }
{
    match (content, other) {
        (None, None) => true,
        (Some(bytes), Some(others)) => bytes == others,
        _ => false,
    }
}

// Whether a stop may leave this content under the name.
fn may_leave_in<A: Allocator>(calls: &[DiskCall<A>], name: &str, content: Option<&[u8]>) -> bool
    ensures { result ≡ leaves_after calls.now name.now (option_map (λ bytes. bytes.now) content.entry) }
{
    let [call, before @ ..] = calls else {
        return content.is_none();
    };
    match call {
        DiskCall::Wrote(written, _) if written.as_str() == name => true,
        DiskCall::Renamed(from, to) if to.as_str() == name => {
            !is_synced_in(before, from.as_str())
                || may_leave_in(before, name, content)
                || is_same(content, seen_in(before, from.as_str()))
        }
        DiskCall::Renamed(from, _) if from.as_str() == name => true,
        DiskCall::Removed(removed) => {
            may_leave_in(before, name, content) || removed.as_str() == name && content.is_none()
        }
        DiskCall::SyncedEntry(synced) if synced.as_str() == name && is_synced_in(before, name) => {
            is_same(content, seen_in(before, name))
        }
        DiskCall::SyncedFolder(start)
            if name.as_bytes().starts_with(start.as_bytes()) && is_synced_in(before, name) => {
            is_same(content, seen_in(before, name))
        }
        _ => may_leave_in(before, name, content),
    }
}

// Keeps a call that is done.
pub(crate) fn note<A: Allocator>(
    calls: &mut Vec<DiskCall<A>, A>,
    call: DiskCall<A>,
) -> Result<(), StoreFault>
    ensures ok { OnOk result (calls.new.items ≡ call ∷ calls.old.items) }
    ensures err { OnErr result (calls.new.items ≡ calls.old.items) }
{
    match calls.insert(0, call) {
        Ok(()) => Ok(()),
        Err(_) => Err(StoreFault::Memory),
    }
}

impl<A: Allocator + Copy> MemDisk<A> {
    /// An empty disk. It takes no memory.
    pub fn new(alloc: A) -> MemDisk<A>
        ensures { result.calls.items ≡ [] }
    {
        MemDisk {
            alloc,
            calls: Vec::new(alloc),
        }
    }

    /// Whether a stop may leave this content under the name.
    pub fn may_leave(&self, name: &str, content: Option<&[u8]>) -> bool
        ensures { result
            ≡ leaves_after self.now.calls.items name.now (option_map (λ bytes. bytes.now) content.entry) }
    {
        may_leave_in(&self.calls, name, content)
    }
}

impl<A: Allocator + Copy> Disk for MemDisk<A> {
    ghost use Rattle.test_helpers.specs.DiskCalls.{disk_after};

    type Memory = A;

    ghost state = { λ d. disk_after d.calls.items };

    fn read(&mut self, name: &str, limit: usize) -> Result<Option<Vec<u8, A>>, StoreFault> {
        let Some(bytes) = seen_in(&self.calls, name) else {
            return Ok(None);
        };
        let shown = bytes.get(..=limit).unwrap_or(bytes);
        Ok(Some(Vec::from_slice(self.alloc, shown)?))
    }

    fn write(&mut self, name: &str, bytes: &[u8]) -> Result<(), StoreFault> {
        let written = String::from_str(self.alloc, name)?;
        let copy = Vec::from_slice(self.alloc, bytes)?;
        note(&mut self.calls, DiskCall::Wrote(written, copy))
    }

    fn sync(&mut self, name: &str) -> Result<(), StoreFault> {
        let synced = String::from_str(self.alloc, name)?;
        note(&mut self.calls, DiskCall::Synced(synced))
    }

    fn rename(&mut self, from: &str, to: &str) -> Result<(), StoreFault> {
        if seen_in(&self.calls, from).is_none() {
            return Err(StoreFault::Device);
        }
        let old = String::from_str(self.alloc, from)?;
        let new = String::from_str(self.alloc, to)?;
        note(&mut self.calls, DiskCall::Renamed(old, new))
    }

    fn remove(&mut self, name: &str) -> Result<(), StoreFault> {
        let removed = String::from_str(self.alloc, name)?;
        note(&mut self.calls, DiskCall::Removed(removed))
    }

    fn sync_entry(&mut self, name: &str) -> Result<(), StoreFault> {
        let synced = String::from_str(self.alloc, name)?;
        note(&mut self.calls, DiskCall::SyncedEntry(synced))
    }
}
