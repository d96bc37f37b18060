//! Each growth refused in turn, over each call in memory that takes some: the call that is refused is done when it is
//! made again.

use dm_store::{KeyMap, MemSet, MemStore, Store, StoreSet};
use std::alloc::Global;
use test_helpers::Refusing;

// More growths than these calls ask for.
const MOST_GROWTHS: u64 = 200;

// More keys than a map takes before it grows a second time.
const KEYS: u16 = 40;

type Memory = Refusing<Global>;

// Whether a store takes two contents, and gives the second.
fn fills_a_store(memory: &Memory) -> bool {
    let mut store = MemStore::new(memory);
    for bytes in [b"one".as_slice(), b"three".as_slice()] {
        if store.replace(bytes).is_err() && store.replace(bytes).is_err() {
            return false;
        }
    }
    let is_given = store.load(9).is_ok() || store.load(9).is_ok();
    is_given && store.content() == Some(b"three".as_slice())
}

// Whether a set has a content under each key.
fn is_full(set: &MemSet<&Memory>) -> bool {
    for key in 0..KEYS {
        if set.content(key) != Some(b"one".as_slice()) {
            return false;
        }
    }
    true
}

// Whether a set takes a content under each key, and gives one of them, and all keys.
fn fills_a_set(memory: &Memory) -> bool {
    let mut set = MemSet::new(memory);
    for key in 0..KEYS {
        if set.replace(key, b"one").is_err() && set.replace(key, b"one").is_err() {
            return false;
        }
    }
    let is_given = set.load(1, 9).is_ok() || set.load(1, 9).is_ok();
    let are_listed = set.keys(99).is_ok() || set.keys(99).is_ok();
    is_given && are_listed && is_full(&set)
}

// Whether a map takes all keys, and gives them.
fn fills_a_map(memory: &Memory) -> bool {
    let mut map = KeyMap::new(memory);
    for key in 0..KEYS {
        if map.insert(key, key).is_err() && map.insert(key, key).is_err() {
            return false;
        }
    }
    let are_listed = map.first_keys(memory, 99).is_ok() || map.first_keys(memory, 99).is_ok();
    are_listed && map.len() == usize::from(KEYS)
}

#[test]
fn each_growth_is_refused(rt: HostRuntime) {
    for passes in 0..MOST_GROWTHS {
        let memory = Refusing::new(rt.alloc(), passes);
        let is_filled = fills_a_store(&memory) && fills_a_set(&memory) && fills_a_map(&memory);
        assert!(rt; is_filled, "{passes}");
        if !memory.is_spent() {
            assert!(rt; passes > 9);
            return;
        }
    }
    panic!(rt; "growths without end")
}
