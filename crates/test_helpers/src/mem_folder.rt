//! The folders of a disk in memory.

ghost use Rattle.std.specs.Prelude.{◌≡◌, ◌≢◌, ◌≤◌, ◌<◌, ◌^◌, None, List, ℕ, option_map, OnOk};
ghost use Rattle.dm_disk.specs.Disk.{key_path, with_found};
ghost use Rattle.test_helpers.specs.DiskCalls.{seen_after};

use crate::mem_disk::{DiskCall, MemDisk, note, seen_in};
use dm_disk::{Folders, key_of, path_of};
use dm_store::{KeyMap, SavedBytes, StoreFault};
use std::alloc::{AllocError, Allocator};

// One more than the key whose file has this name in some folder; 0 for any other name.
fn after_key(name: &str) -> u32
    ensures bound { result ≤ 2 ^ 16 }
    ensures none { (folder : List ℕ) (key : ℕ) → key < 2 ^ 16 → result ≤ key → name.now ≢ key_path folder key }
{
    let bytes = name.as_bytes();
    match key_of(&bytes[bytes.len().saturating_sub(4)..]) {
        Some(key) => u32::from(key) + 1,
        None => 0,
    }
}

// In each folder all keys that have a file are below this.
fn bound_of<A: Allocator>(calls: &[DiskCall<A>]) -> u32
    ensures bound { result ≤ 2 ^ 16 }
    ensures none { (folder : List ℕ) (key : ℕ) → key < 2 ^ 16 → result ≤ key
        → seen_after calls.now (key_path folder key) ≡ None }
{
    let [call, before @ ..] = calls else {
        return 0;
    };
    match call {
        DiskCall::Wrote(name, _) => bound_of(before).max(after_key(name.as_str())),
        DiskCall::Renamed(_, name) => bound_of(before).max(after_key(name.as_str())),
        _ => bound_of(before),
    }
}

// Holds at a key what is found there.
fn hold<A: Allocator + Copy>(
    alloc: A,
    held: &mut KeyMap<SavedBytes<A>, A>,
    key: u16,
    found: Option<&[u8]>,
) -> Result<(), AllocError>
    ensures { OnOk result (held.new ≡ with_found held.old key (option_map (λ bytes. bytes.now) found.entry)) }
{
    if let Some(bytes) = found {
        held.insert(key, SavedBytes::new(bytes.to_vec(alloc)?))?;
    }
    Ok(())
}

impl<A: Allocator + Copy> Folders for MemDisk<A> {
    fn make_folder(&mut self, _folder: &str) -> Result<(), StoreFault> {
        Ok(())
    }

    fn keys(&mut self, folder: &str, limit: usize) -> Result<Vec<u16, A>, StoreFault> {
        let mut held = KeyMap::new(self.alloc);
        for key in 0..bound_of(&self.calls) {
            let path = path_of(folder, key as u16)?;
            let found = seen_in(&self.calls, path.as_str());
            hold(self.alloc, &mut held, key as u16, found)?;
        }
        let keys = held.first_keys(self.alloc, limit.saturating_add(1))?;
        Ok(keys)
    }

    fn settle_folder(&mut self, folder: &str) -> Result<(), StoreFault> {
        let start = format!(in self.alloc; "{folder}/")?;
        note(&mut self.calls, DiskCall::SyncedFolder(start))
    }
}
