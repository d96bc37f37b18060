//! A store, or a set of stores, behind a fuse: its first calls pass, and each later one is stopped.

ghost use Rattle.std.specs.Prelude.{◌≡◌, Some, IsOk, IsTrue, IsNone, ◌↔◌};
ghost use Rattle.dm_store.specs.Saved.{turn_of_load, turn_of_save, after_call, Fused, Loads, Replaces, MayLackMemory, with_open_plans, Goes, ListsKeys, LoadsKey, Settles, SavesKey, RemovesKey};

use crate::set::StoreSet;
use crate::store::{Store, StoreFault};
use std::marker::Model;

/// What the first call that a fuse stops leaves, where that call is a save.
#[derive(Clone, Copy, Debug, PartialEq, Eq)]
pub enum Kept {
    /// The old content: the save is not passed to the store within.
    Old,
    /// The new content: the save is made there, and a device fault is answered in place of its `Ok`.
    New,
}

/// What a fuse does with a call.
#[derive(Clone, Copy)]
enum Turn {
    /// The call goes to the store within, and its answer comes back.
    Passes,
    /// The call goes to the store within, and a device fault is answered in place of `Ok`.
    Made,
    /// A device fault is answered, and the store within is left alone.
    Stopped,
}

/// A store or a set of stores that stops: its first calls go to the one within, and each later call answers a device
/// fault and leaves the one within alone. With [`Kept::New`] the first later call, if it is a replace or a remove, is
/// made there and answers a device fault in place of `Ok`.
#[derive(Drop)]
pub struct Fuse<S> {
    inner: S,
    // How many calls still pass, or `None` once a call came after the last of these.
    left: Option<u32>,
    kept: Kept,
}

/// A store behind a fuse.
pub type FuseStore<S> = Fuse<S>;

/// A set of stores behind a fuse.
pub type FuseSet<S> = Fuse<S>;

impl<S> Model for Fuse<S> {
    ghost Value = { Fused S };

    ghost view = { λ f. record { inner = f.inner; left = f.left; kept = f.kept } };
}

impl<S> Fuse<S> {
    /// A fuse that lets `passes` calls through to `inner`. It takes no memory.
    pub fn new(inner: S, passes: u32, kept: Kept) -> Fuse<S>
        ensures { result ≡ record { inner = inner; left = Some passes; kept = kept } }
    {
        Fuse {
            inner,
            left: Some(passes),
            kept,
        }
    }

    /// Whether a call came after those that pass.
    pub fn spent(&self) -> bool
        ensures { IsTrue result ↔ IsNone self.now.left }
    {
        self.left.is_none()
    }

    /// The one within, as the calls left it.
    pub fn into_inner(self) -> S
        ensures { result ≡ self.inner }
    {
        self.inner
    }

    // Counts a call that changes nothing in the store.
    fn take_load(&mut self) -> Turn
        ensures turn { result ≡ turn_of_load self.old.left }
        ensures counts { self.new ≡ record self.old { left = after_call self.old.left } }
    {
        match self.left {
            Some(0) => {
                self.left = None;
                Turn::Stopped
            }
            Some(left) => {
                self.left = Some(left - 1);
                Turn::Passes
            }
            None => Turn::Stopped,
        }
    }

    // Counts a call that replaces or removes.
    fn take_save(&mut self) -> Turn
        ensures turn { result ≡ turn_of_save self.old.left self.old.kept }
        ensures counts { self.new ≡ record self.old { left = after_call self.old.left } }
    {
        match (self.left, self.kept) {
            (Some(0), Kept::New) => {
                self.left = None;
                Turn::Made
            }
            _ => self.take_load(),
        }
    }
}

impl<S: Store> Store for Fuse<S> {
    type Memory = S::Memory;

    ghost state = { λ fused. with_open_plans (S.state fused.inner) };

    ghost is_settled = { λ fused. S.is_settled fused.inner };

    fn load(&mut self, limit: usize) -> Result<Option<Vec<u8, S::Memory>>, StoreFault>
        ensures loads { Loads (λ bytes. bytes.items) (with_open_plans (S.state self.old.inner)) limit result
            (with_open_plans (S.state self.new.inner)) }
        ensures goes { Goes (turn_of_load self.old.left) StoreFault.Device
            (λ answer inner. Loads (λ bytes. bytes.items) (S.state self.old.inner) limit answer (S.state inner))
            self.old.inner result self.new.inner }
        ensures counts { self.new ≡ record self.old { inner = self.new.inner; left = after_call self.old.left } }
    {
        match self.take_load() {
            Turn::Passes => self.inner.load(limit),
            Turn::Made | Turn::Stopped => Err(StoreFault::Device),
        }
    }

    fn settle(&mut self) -> Result<(), StoreFault>
        ensures settles { Settles (with_open_plans (S.state self.old.inner)) result
            (with_open_plans (S.state self.new.inner)) }
        ensures settled { IsOk result → S.is_settled self.new.inner }
        ensures goes { Goes (turn_of_load self.old.left) StoreFault.Device
            (λ answer inner. Settles (S.state self.old.inner) answer (S.state inner))
            self.old.inner result self.new.inner }
        ensures counts { self.new ≡ record self.old { inner = self.new.inner; left = after_call self.old.left } }
    {
        match self.take_load() {
            Turn::Passes => self.inner.settle(),
            Turn::Made | Turn::Stopped => Err(StoreFault::Device),
        }
    }

    fn replace(&mut self, bytes: &[u8]) -> Result<(), StoreFault>
        ensures replaces { Replaces (with_open_plans (S.state self.old.inner)) bytes.now result
            (with_open_plans (S.state self.new.inner)) }
        ensures memory { MayLackMemory (with_open_plans (S.state self.old.inner)) result }
        ensures settled { IsOk result → S.is_settled self.new.inner }
        ensures goes { Goes (turn_of_save self.old.left self.old.kept) StoreFault.Device
            (λ answer inner. Replaces (S.state self.old.inner) bytes.now answer (S.state inner))
            self.old.inner result self.new.inner }
        ensures counts { self.new ≡ record self.old { inner = self.new.inner; left = after_call self.old.left } }
    {
        match self.take_save() {
            Turn::Passes => self.inner.replace(bytes),
            Turn::Made => {
                self.inner.replace(bytes)?;
                Err(StoreFault::Device)
            }
            Turn::Stopped => Err(StoreFault::Device),
        }
    }
}

impl<S: StoreSet> StoreSet for Fuse<S> {
    type Memory = S::Memory;

    type Settled = S::Settled;

    ghost state = { λ fused. with_open_plans (S.state fused.inner) };

    ghost is_settled = { λ fused. S.is_settled fused.inner };

    fn keys(&mut self, limit: usize) -> Result<Vec<u16, S::Memory>, StoreFault>
        ensures lists { ListsKeys (λ keys. keys.items) (with_open_plans (S.state self.old.inner)) limit result
            (with_open_plans (S.state self.new.inner)) }
        ensures goes { Goes (turn_of_load self.old.left) StoreFault.Device
            (λ answer inner. ListsKeys (λ keys. keys.items) (S.state self.old.inner) limit answer (S.state inner))
            self.old.inner result self.new.inner }
        ensures counts { self.new ≡ record self.old { inner = self.new.inner; left = after_call self.old.left } }
    {
        match self.take_load() {
            Turn::Passes => self.inner.keys(limit),
            Turn::Made | Turn::Stopped => Err(StoreFault::Device),
        }
    }

    fn load(&mut self, key: u16, limit: usize) -> Result<Option<Vec<u8, S::Memory>>, StoreFault>
        ensures loads { LoadsKey (λ bytes. bytes.items) (with_open_plans (S.state self.old.inner)) key limit result
            (with_open_plans (S.state self.new.inner)) }
        ensures goes { Goes (turn_of_load self.old.left) StoreFault.Device
            (λ answer inner. LoadsKey (λ bytes. bytes.items) (S.state self.old.inner) key limit answer (S.state inner))
            self.old.inner result self.new.inner }
        ensures counts { self.new ≡ record self.old { inner = self.new.inner; left = after_call self.old.left } }
    {
        match self.take_load() {
            Turn::Passes => self.inner.load(key, limit),
            Turn::Made | Turn::Stopped => Err(StoreFault::Device),
        }
    }

    fn settle(&mut self) -> Result<S::Settled, StoreFault>
        ensures settles { Settles (with_open_plans (S.state self.old.inner)) result
            (with_open_plans (S.state self.new.inner)) }
        ensures settled { IsOk result → S.is_settled self.new.inner }
        ensures goes { Goes (turn_of_load self.old.left) StoreFault.Device
            (λ answer inner. Settles (S.state self.old.inner) answer (S.state inner))
            self.old.inner result self.new.inner }
        ensures counts { self.new ≡ record self.old { inner = self.new.inner; left = after_call self.old.left } }
    {
        match self.take_load() {
            Turn::Passes => self.inner.settle(),
            Turn::Made | Turn::Stopped => Err(StoreFault::Device),
        }
    }

    fn replace(&mut self, key: u16, bytes: &[u8]) -> Result<(), StoreFault>
        ensures replaces { SavesKey (with_open_plans (S.state self.old.inner)) key bytes.now result
            (with_open_plans (S.state self.new.inner)) }
        ensures memory { MayLackMemory (with_open_plans (S.state self.old.inner)) result }
        ensures goes { Goes (turn_of_save self.old.left self.old.kept) StoreFault.Device
            (λ answer inner. SavesKey (S.state self.old.inner) key bytes.now answer (S.state inner))
            self.old.inner result self.new.inner }
        ensures counts { self.new ≡ record self.old { inner = self.new.inner; left = after_call self.old.left } }
    {
        match self.take_save() {
            Turn::Passes => self.inner.replace(key, bytes),
            Turn::Made => {
                self.inner.replace(key, bytes)?;
                Err(StoreFault::Device)
            }
            Turn::Stopped => Err(StoreFault::Device),
        }
    }

    fn remove(&mut self, key: u16) -> Result<(), StoreFault>
        ensures removes { RemovesKey (with_open_plans (S.state self.old.inner)) key result
            (with_open_plans (S.state self.new.inner)) }
        ensures goes { Goes (turn_of_save self.old.left self.old.kept) StoreFault.Device
            (λ answer inner. RemovesKey (S.state self.old.inner) key answer (S.state inner))
            self.old.inner result self.new.inner }
        ensures counts { self.new ≡ record self.old { inner = self.new.inner; left = after_call self.old.left } }
    {
        match self.take_save() {
            Turn::Passes => self.inner.remove(key),
            Turn::Made => {
                self.inner.remove(key)?;
                Err(StoreFault::Device)
            }
            Turn::Stopped => Err(StoreFault::Device),
        }
    }
}
