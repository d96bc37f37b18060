//! What a store promises, and its faults.

ghost use Rattle.std.specs.Prelude.{◌≡◌, IfOk, IsOk, IsSome};
ghost use Rattle.dm_store.specs.declared.store.StoreFault.TheVariants.{Memory};
ghost use Rattle.dm_store.specs.Saved.{Saved, Loads, Settles, Replaces, MayLackMemory};

use std::alloc::{AllocError, Allocator};
use std::io::{self, ErrorKind};
use thiserror::Error;

/// Why a store, a set or a disk did not do what it was asked.
#[derive(Clone, Copy, Debug, PartialEq, Eq, Error)]
pub enum StoreFault {
    /// The device failed, or it can't be known whether it did. A reader finds from then on what was there before, or
    /// what was to be there.
    #[error("the device failed")]
    Device,
    /// There was no memory for the call, and what was there is there.
    #[error("out of memory")]
    Memory,
}

impl From<AllocError> for StoreFault {
    ghost from_gives = { λ _ fault. fault ≡ Memory };

    fn from(_: AllocError) -> Self {
        StoreFault::Memory
    }
}

impl From<io::Error> for StoreFault {
    fn from(error: io::Error) -> Self {
        match error.kind() {
            ErrorKind::OutOfMemory => StoreFault::Memory,
            _ => StoreFault::Device,
        }
    }
}

/// A place for one list of bytes.
pub trait Store: Drop {
    /// What the bytes that a load gives are allocated in.
    type Memory: Allocator;

    /// What it holds, whether it is honest, and its plans.
    ghost state: { Self → Saved };

    /// That no stop of the machine takes back what it holds, but of a file whose bytes somebody left unsynced.
    ghost is_settled: { Self → Type 0 };

    /// The saved bytes, or their first `limit + 1` where they are longer, or `None` where nothing is saved.
    fn load(&mut self, limit: usize) -> Result<Option<Vec<u8, Self::Memory>>, StoreFault>
        ensures loads { Loads (λ bytes. bytes.items) (state self.old) limit result (state self.new) };

    /// Settles what the loads before have given, if that was bytes: no stop of the machine takes it back then. Whoever
    /// tells of them, and saves nothing, calls it first.
    fn settle(&mut self) -> Result<(), StoreFault>
        ensures settles { Settles (state self.old) result (state self.new) }
        ensures settled { IsOk result → is_settled self.new };

    /// Puts the bytes in place of the saved ones.
    fn replace(&mut self, bytes: &[u8]) -> Result<(), StoreFault>
        ensures replaces { Replaces (state self.old) bytes.now result (state self.new) }
        ensures memory { MayLackMemory (state self.old) result }
        ensures settled { IsOk result → is_settled self.new };
}

/// Loads, and settles what that gave: no stop of the machine takes it back then.
///
/// # Errors
/// Those of the load, then those of the settle.
pub fn load_settled<S: Store>(
    store: &mut S,
    limit: usize,
) -> Result<Option<Vec<u8, S::Memory>>, StoreFault>
    ensures loads { Loads (λ bytes. bytes.items) (S.state store.old) limit result (S.state store.new) }
    ensures settled { IfOk result (λ loaded. IsSome loaded → S.is_settled store.new) }
{
    let loaded = store.load(limit)?;
    if loaded.is_some() {
        store.settle()?;
    }
    Ok(loaded)
}
