//! One call on a store in a file or on a set in a folder, and the name of its answer.

use crate::scripted::Scripted;
use dm_disk::{FileSet, FileStore, Folders, RealDisk};
use dm_store::{Store, StoreFault, StoreSet, load_settled};
use std::alloc::{Allocator, Global};
use test_helpers::Refusing;

// A call: on the store in the file `pages/0001`, or on that of the key 1 of the set in the folder `pages`. Bytes are
// loaded under a limit, and `three` is what replaces them.
#[derive(Drop)]
pub enum Call {
    Load(usize),
    Replace,
    LoadKey(usize),
    // Whether the keys are listed first.
    ReplaceKey(bool),
    RemoveKey,
    Settle,
    // The keys under a limit.
    Keys(usize),
}

impl Call {
    // Whether it saves nothing.
    pub fn is_load(&self) -> bool {
        !matches!(self, Call::Replace | Call::ReplaceKey(_) | Call::RemoveKey)
    }
}

// The allocator of a call.
pub type Memory = Refusing<Global>;

// These bytes, if they are a text that the tests save, or the beginning of one.
pub fn text_of(bytes: &[u8]) -> &'static str {
    for text in ["one", "three", "on", "o"] {
        if text.as_bytes() == bytes {
            return text;
        }
    }
    "other bytes"
}

// Keys that the tests list, and their names.
#[rattlefmt::skip]
const LISTS: [(&[u16], &str); 5] =
    [(&[], "none"), (&[1], "1"), (&[1, 2], "1 2"), (&[1, 2, 3, 65_535], "1 2 3 ffff"), (&[0xab], "ab")];

fn name_of(keys: &[u16]) -> &'static str {
    for (list, name) in LISTS {
        if list == keys {
            return name;
        }
    }
    "other keys"
}

// What a call gives.
#[derive(Drop)]
enum Given<A: Allocator> {
    Bytes(Option<Vec<u8, A>>),
    Keys(Vec<u16, A>),
    Done,
}

fn named<A: Allocator>(answer: Result<Given<A>, StoreFault>) -> &'static str {
    match answer {
        Ok(Given::Bytes(Some(bytes))) => text_of(bytes.as_slice()),
        Ok(Given::Bytes(None)) => "nothing",
        Ok(Given::Keys(keys)) => name_of(keys.as_slice()),
        Ok(Given::Done) => "done",
        Err(StoreFault::Device) => "Device",
        Err(StoreFault::Memory) => "Memory",
    }
}

// The answer of any store, of any set, and over any disk: what is over those of a system is proved in more time.
fn of_any_store<S: Store>(mut store: S, call: &Call) -> Result<Given<S::Memory>, StoreFault> {
    match call {
        Call::Load(limit) => return Ok(Given::Bytes(load_settled(&mut store, *limit)?)),
        _ => store.replace(b"three")?,
    }
    Ok(Given::Done)
}

fn of_any_set<S: StoreSet>(mut set: S, call: &Call) -> Result<Given<S::Memory>, StoreFault> {
    match call {
        Call::LoadKey(limit) => return Ok(Given::Bytes(set.load(1, *limit)?)),
        Call::Keys(limit) => return Ok(Given::Keys(set.keys(*limit)?)),
        Call::RemoveKey => set.remove(1)?,
        Call::Settle => {
            set.settle()?;
        }
        Call::ReplaceKey(true) => {
            set.keys(9)?;
            set.replace(1, b"three")?;
        }
        _ => set.replace(1, b"three")?,
    }
    Ok(Given::Done)
}

// The answer to a call on the store in the file of the key 1 of a folder, or on the set in the folder.
fn of_any_disk<D: Folders>(
    alloc: Global,
    disk: D,
    folder: &str,
    call: &Call,
) -> Result<Given<D::Memory>, StoreFault> {
    match call {
        Call::Load(_) | Call::Replace => {
            let path = format!(in alloc; "{folder}/0001")?;
            of_any_store(FileStore::new(disk, path), call)
        }
        _ => {
            let path = String::from_str(alloc, folder)?;
            of_any_set(FileSet::new(disk, path), call)
        }
    }
}

// The answer to a call over files under a script. The names of a folder are given in an allocator of their own.
fn of_files<A: Allocator + Copy>(
    files: &(&Scripted, Global),
    memory: A,
    folder: &str,
    call: &Call,
) -> Result<Given<A>, StoreFault> {
    of_any_disk(files.1, RealDisk::new(memory, files), folder, call)
}

// The text of the answer.
pub fn answer(files: &Scripted, memory: &Memory, folder: &str, call: &Call) -> &'static str {
    named(of_files(&(files, files.alloc()), memory, folder, call))
}
