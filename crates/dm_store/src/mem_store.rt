//! A store in memory.

ghost use Rattle.std.specs.Prelude.{◌≡◌, ◌≢◌, ◌↔◌, Err, false, None, Some, option_map, IsErrOf, IsSome};
ghost use Rattle.dm_store.specs.Saved.{Saved, in_memory, saved_code, load_plan_of, save_plan_of, Loads, LoadsOpen, Settles};

use crate::store::{Store, StoreFault};
use std::alloc::{Allocator, Global};
use std::marker::Model;
use std::mem;

/// What the next save of a store or a set in memory does.
#[derive(Clone, Copy, Debug, PartialEq, Eq)]
pub enum NextSave {
    /// It is done.
    Fine,
    /// It meets a device fault that leaves the old content.
    FaultOld,
    /// It meets a device fault that leaves the new content.
    FaultNew,
}

/// A store in memory, which is honest and meets a device fault exactly where it was set to. Its calls may be refused
/// for lack of memory.
#[derive(Drop)]
pub struct MemStore<A: Allocator + Copy = Global> {
    alloc: A,
    held: Option<Vec<u8, A>>,
    next_save: NextSave,
    fails_loads: bool,
}

impl<A: Allocator + Copy> Model for MemStore<A> {
    ghost Value = { Saved };

    ghost coded = { saved_code };

    ghost view = { λ m. in_memory (option_map (λ bytes. bytes.items) m.held) m.fails_loads m.next_save };
}

impl<A: Allocator + Copy> MemStore<A> {
    /// A store that holds nothing. It takes no memory.
    pub fn new(alloc: A) -> MemStore<A>
        ensures { result ≡ in_memory None false NextSave.Fine }
    {
        MemStore {
            alloc,
            held: None,
            next_save: NextSave::Fine,
            fails_loads: false,
        }
    }

    /// A store that holds these bytes. It takes no memory.
    pub fn with(alloc: A, bytes: Vec<u8, A>) -> MemStore<A>
        ensures { result ≡ in_memory (Some bytes.items) false NextSave.Fine }
    {
        let mut store = MemStore::new(alloc);
        store.held = Some(bytes);
        store
    }

    /// Sets what the next replace does, and that one alone. A replace refused for lack of memory leaves the setting.
    pub fn set_next(&mut self, next: NextSave)
        ensures { self.new ≡ record self.old { save_plan = save_plan_of next } }
    {
        self.next_save = next;
    }

    /// Sets whether loads and settles answer a device fault, until it is set anew.
    pub fn set_load(&mut self, fails: bool)
        ensures { self.new ≡ record self.old { load_plan = load_plan_of fails } }
    {
        self.fails_loads = fails;
    }

    /// The bytes held, lent and not copied.
    pub fn content(&self) -> Option<&[u8]>
        ensures { option_map (λ bytes. bytes.now) result ≡ self.now.content }
    {
        Some(self.held.as_ref()?.as_slice())
    }
}

impl<A: Allocator + Copy> Store for MemStore<A> {
    type Memory = A;

    ghost state = { λ store. store };

    ghost is_settled = { λ _. Unit {0} };

    fn load(&mut self, limit: usize) -> Result<Option<Vec<u8, A>>, StoreFault>
        ensures loads { Loads (λ bytes. bytes.items) self.old limit result self.new }
        ensures device { IsErrOf result StoreFault.Device ↔ (self.old.load_plan ≡ LoadsOpen) }
        // Nothing that isn't there takes memory.
        ensures memory { IsErrOf result StoreFault.Memory → IsSome self.old.content }
    {
        if self.fails_loads {
            return Err(StoreFault::Device);
        }
        let Some(bytes) = &self.held else {
            return Ok(None);
        };
        let shown = bytes.get(..=limit).unwrap_or(bytes.as_slice());
        Ok(Some(Vec::from_slice(self.alloc, shown)?))
    }

    fn settle(&mut self) -> Result<(), StoreFault>
        ensures settles { Settles self.old result self.new }
        ensures device { IsErrOf result StoreFault.Device ↔ (self.old.load_plan ≡ LoadsOpen) }
        // It takes no memory.
        ensures memory { result ≢ Err StoreFault.Memory }
    {
        if self.fails_loads {
            return Err(StoreFault::Device);
        }
        Ok(())
    }

    fn replace(&mut self, bytes: &[u8]) -> Result<(), StoreFault> {
        let copy = Vec::from_slice(self.alloc, bytes)?;
        if self.next_save != NextSave::FaultOld {
            self.held = Some(copy);
        }
        match mem::replace(&mut self.next_save, NextSave::Fine) {
            NextSave::Fine => Ok(()),
            NextSave::FaultOld | NextSave::FaultNew => Err(StoreFault::Device),
        }
    }
}
