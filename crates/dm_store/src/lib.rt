//! Places for saved bytes: one list of bytes, or one for each key; in memory, and behind a fuse.
//!
//! What saves is generic over [`Store`] or [`StoreSet`]. Contracts see of each what it holds, whether it is honest,
//! what its loads may do, and what its next save does. Proved of each store and set here, and of those in files
//! (`dm_disk`):
//!
//! - A load changes nothing. Of an honest store it gives the content, cut after `limit + 1` bytes or keys. It meets a
//!   device fault only where loads may.
//! - After a save that answers `Ok` an honest store holds the new content. After `Memory` nothing has changed. After
//!   `Device` it holds the old or the new content, as its plan for the save said. An honest set changes no other key.
//! - No call changes the honesty or what loads may do.
//! - After a settle that answers `Ok`, and after such a save of a store, no stop takes back what is held
//!   (`is_settled`).
//!
//! [`MemStore`] and [`MemSet`] are honest, and meet a device fault exactly where they were set to. A [`Fuse`] stops a
//! store or a set after a number of calls. [`KeyMap`] is the map that a set in memory is made of.
#![tactic(auto)]

mod fuse;
mod key_map;
mod mem_set;
mod mem_store;
mod set;
mod store;

pub use fuse::{Fuse, FuseSet, FuseStore, Kept};
pub use key_map::KeyMap;
pub use mem_set::{MemSet, SavedBytes};
pub use mem_store::{MemStore, NextSave};
pub use set::StoreSet;
pub use store::{Store, StoreFault, load_settled};
