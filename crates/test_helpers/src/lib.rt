//! What tests share: an allocator that refuses one allocation, copies of bytes with one byte spoiled, readers and
//! writers that fail or are interrupted, and a disk whose machine stops.
//!
//! Proved: each call returns and is safe, and [`Refusing`] is an allocator, so that what owns memory of it owns memory
//! of the allocator within. [`MemDisk`] is proved to be an honest disk with folders, of which a stop may leave whatever
//! the contract of disks allows after calls that were done; a call that fails changes nothing there. [`Stopping`] is
//! proved a disk over any other, though each of its calls may be the one that the machine stops at; and [`KeepingNames`]
//! is one that keeps all names. What else the
//! comments say has no contract: `store_and_stream_tests` shows it.
#![tactic(auto)]

mod failing;
mod keeping;
mod mem_disk;
mod mem_folder;
mod refusing;
mod spoiling;
mod stopping;

pub use failing::{Faulty, FaultyWriter};
pub use keeping::KeepingNames;
pub use mem_disk::{DiskCall, MemDisk};
pub use refusing::Refusing;
pub use spoiling::{count, spoiled};
pub use stopping::Stopping;
