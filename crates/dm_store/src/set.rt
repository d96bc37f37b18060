//! What a set of stores promises.

ghost use Rattle.std.specs.Prelude.{◌≡◌, IsOk};
ghost use Rattle.dm_store.specs.Saved.{MayLackMemory, SavedSet, ListsKeys, LoadsKey, Settles, SavesKey, RemovesKey};

use crate::store::StoreFault;
use std::alloc::Allocator;

/// A place for one list of bytes under each key.
pub trait StoreSet: Drop {
    /// What the keys and the bytes that a load gives are allocated in.
    type Memory: Allocator;

    /// That what was found is settled. Only [`StoreSet::settle`] makes one, so what tells of what was found can ask for
    /// it.
    type Settled: Drop;

    /// What it holds, whether it is honest, and its plans.
    ghost state: { Self → SavedSet };

    /// That no stop of the machine takes back what it holds, but of files whose bytes somebody left unsynced.
    ghost is_settled: { Self → Type 0 };

    /// The keys under which bytes are saved, rising: all, or the first `limit + 1` where there are more.
    fn keys(&mut self, limit: usize) -> Result<Vec<u16, Self::Memory>, StoreFault>
        ensures lists { ListsKeys (λ keys. keys.items) (state self.old) limit result (state self.new) };

    /// The bytes saved under a key, or their first `limit + 1` where they are longer, or `None` where nothing is saved.
    fn load(&mut self, key: u16, limit: usize) -> Result<Option<Vec<u8, Self::Memory>>, StoreFault>
        ensures loads { LoadsKey (λ bytes. bytes.items) (state self.old) key limit result (state self.new) };

    /// Settles what the calls before have found, the keys and the bytes: no stop of the machine takes it back then.
    /// Whoever answers by loads calls it once, after all of them.
    fn settle(&mut self) -> Result<Self::Settled, StoreFault>
        ensures settles { Settles (state self.old) result (state self.new) }
        ensures settled { IsOk result → is_settled self.new };

    /// Puts the bytes in place of those saved under a key, if any.
    fn replace(&mut self, key: u16, bytes: &[u8]) -> Result<(), StoreFault>
        ensures replaces { SavesKey (state self.old) key bytes.now result (state self.new) }
        ensures memory { MayLackMemory (state self.old) result };

    /// Takes away what is saved under a key.
    fn remove(&mut self, key: u16) -> Result<(), StoreFault>
        ensures removes { RemovesKey (state self.old) key result (state self.new) };
}
