//! A set of stores in memory.

ghost use Rattle.std.specs.Prelude.{◌≡◌, ◌↔◌, false, option_map, IsErrOf, IsSome, List, ℕ, ◌≢◌, Err};
ghost use Rattle.std.specs.FinMap as map;
ghost use Rattle.dm_store.specs.Saved.{SavedSet, in_memory, saved_set_code, load_plan_of, save_plan_of, LoadsOpen, ListsKeys, LoadsKey, Settles, RemovesKey};

use crate::key_map::KeyMap;
use crate::mem_store::NextSave;
use crate::set::StoreSet;
use crate::store::StoreFault;
use std::alloc::{Allocator, Global};
use std::marker::Model;
use std::mem;

/// Saved bytes, which contracts see as their list.
#[derive(Drop)]
pub struct SavedBytes<A: Allocator = Global> {
    bytes: Vec<u8, A>,
}

impl<A: Allocator> Model for SavedBytes<A> {
    ghost Value = { List ℕ };

    ghost view = { λ s. s.bytes.items };
}

impl<A: Allocator> SavedBytes<A> {
    /// These bytes.
    pub fn new(bytes: Vec<u8, A>) -> Self
        ensures { result ≡ bytes.items }
    {
        SavedBytes { bytes }
    }

    /// The bytes, lent.
    pub fn as_slice(&self) -> &[u8]
        ensures { result.now ≡ self.now }
    {
        self.bytes.as_slice()
    }
}

/// A set of stores in memory, which is honest and meets a device fault exactly where it was set to.
#[derive(Drop)]
pub struct MemSet<A: Allocator + Copy = Global> {
    alloc: A,
    held: KeyMap<SavedBytes<A>, A>,
    next_save: NextSave,
    fails_loads: bool,
}

impl<A: Allocator + Copy> Model for MemSet<A> {
    ghost Value = { SavedSet };

    ghost coded = { saved_set_code };

    ghost view = { λ m. in_memory m.held m.fails_loads m.next_save };
}

impl<A: Allocator + Copy> MemSet<A> {
    /// A set that holds nothing. It takes no memory.
    pub fn new(alloc: A) -> MemSet<A>
        ensures { result ≡ in_memory map.empty false NextSave.Fine }
    {
        MemSet {
            alloc,
            held: KeyMap::new(alloc),
            next_save: NextSave::Fine,
            fails_loads: false,
        }
    }

    /// Sets what the next replace, or the next remove of a key that is there, does, and that one alone. A call refused
    /// for lack of memory leaves the setting.
    pub fn set_next(&mut self, next: NextSave)
        ensures { self.new ≡ record self.old { save_plan = save_plan_of next } }
    {
        self.next_save = next;
    }

    /// Sets whether loads, of keys and of bytes, and settles answer a device fault, until it is set anew.
    pub fn set_load(&mut self, fails: bool)
        ensures { self.new ≡ record self.old { load_plan = load_plan_of fails } }
    {
        self.fails_loads = fails;
    }

    /// The bytes saved under a key, lent and not copied.
    pub fn content(&self, key: u16) -> Option<&[u8]>
        ensures { option_map (λ bytes. bytes.now) result ≡ map.get self.now.content key }
    {
        Some(self.held.get(key)?.as_slice())
    }
}

impl<A: Allocator + Copy> StoreSet for MemSet<A> {
    type Memory = A;

    type Settled = ();

    ghost state = { λ set. set };

    ghost is_settled = { λ _. Unit {0} };

    fn keys(&mut self, limit: usize) -> Result<Vec<u16, A>, StoreFault>
        ensures lists { ListsKeys (λ keys. keys.items) self.old limit result self.new }
        ensures device { IsErrOf result StoreFault.Device ↔ (self.old.load_plan ≡ LoadsOpen) }
    {
        if self.fails_loads {
            return Err(StoreFault::Device);
        }
        let keys = self.held.first_keys(self.alloc, limit.saturating_add(1))?;
        Ok(keys)
    }

    fn load(&mut self, key: u16, limit: usize) -> Result<Option<Vec<u8, A>>, StoreFault>
        ensures loads { LoadsKey (λ bytes. bytes.items) self.old key limit result self.new }
        ensures device { IsErrOf result StoreFault.Device ↔ (self.old.load_plan ≡ LoadsOpen) }
        // Nothing that isn't there takes memory.
        ensures memory { IsErrOf result StoreFault.Memory → IsSome (map.get self.old.content key) }
    {
        if self.fails_loads {
            return Err(StoreFault::Device);
        }
        let Some(saved) = self.held.get(key) else {
            return Ok(None);
        };
        let bytes = saved.as_slice();
        let shown = bytes.get(..=limit).unwrap_or(bytes);
        Ok(Some(Vec::from_slice(self.alloc, shown)?))
    }

    fn settle(&mut self) -> Result<(), StoreFault>
        ensures settles { Settles self.old result self.new }
        ensures device { IsErrOf result StoreFault.Device ↔ (self.old.load_plan ≡ LoadsOpen) }
        // It takes no memory.
        ensures memory { result ≢ Err StoreFault.Memory }
    {
        if self.fails_loads {
            return Err(StoreFault::Device);
        }
        Ok(())
    }

    fn replace(&mut self, key: u16, bytes: &[u8]) -> Result<(), StoreFault> {
        let copy = Vec::from_slice(self.alloc, bytes)?;
        if self.next_save != NextSave::FaultOld {
            let saved = SavedBytes::new(copy);
            self.held.insert(key, saved)?;
        }
        match mem::replace(&mut self.next_save, NextSave::Fine) {
            NextSave::Fine => Ok(()),
            NextSave::FaultOld | NextSave::FaultNew => Err(StoreFault::Device),
        }
    }

    fn remove(&mut self, key: u16) -> Result<(), StoreFault>
        ensures removes { RemovesKey self.old key result self.new }
        // It takes no memory.
        ensures memory { result ≢ Err StoreFault.Memory }
    {
        if self.held.get(key).is_none() {
            return Ok(());
        }
        let next = mem::replace(&mut self.next_save, NextSave::Fine);
        if next != NextSave::FaultOld {
            self.held.remove(key);
        }
        match next {
            NextSave::Fine => Ok(()),
            NextSave::FaultOld | NextSave::FaultNew => Err(StoreFault::Device),
        }
    }
}
