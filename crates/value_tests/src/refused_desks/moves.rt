// The documents of a file of version 1 on their way to a set: the old store and the set stop after each number of their
// calls, and each growth of memory is refused in turn. The two hold together what they held, and a second call finishes
// the first.
use super::calls::Memory;
use super::stops::holds;
use super::{FIRST, JOINT, THIRD};
use dm_assembly_desk::move_pages;
use dm_store::{FuseSet, FuseStore, Kept, MemSet, MemStore, Store, StoreSet};
use std::process::Abort;
use test_helpers::Refusing;

// The calls of the old store, a load, its settle and a save, and of the set, the keys, their settle and two saves.
const OLD_CALLS: u32 = 3;

const SET_CALLS: u32 = 4;

// More growths than a move asks for, and more calls than it makes.
const MANY: u32 = 1000;

// What is answered to a move.
fn moved<O: Store, S: StoreSet>(memory: &Memory, old: &mut O, set: &mut S) -> &'static str {
    match move_pages(memory, old, set) {
        Ok(_) => "done",
        Err(fault) => fault.name(),
    }
}

// The old store, and the set.
type Both<'a> = (MemStore<&'a Memory>, MemSet<&'a Memory>);

// Whether each of the two documents is in the set, or else in the old store, with all others.
fn are_joined((old, set): &Both<'_>) -> bool {
    for (key, file) in [(0, FIRST), (9, THIRD)] {
        let is_joined = match set.content(key) {
            Some(bytes) => bytes == file,
            None => old.content() == Some(JOINT),
        };
        if !is_joined {
            return false;
        }
    }
    true
}

// A move that may stop or be refused: the answer, and the two then.
fn moved_once<'a>(
    rt: &impl Abort,
    memory: &'a Memory,
    (old_passes, set_passes): (u32, u32),
    kept: Kept,
) -> (&'static str, Both<'a>) {
    let mut old = MemStore::new(memory);
    assert!(rt; old.replace(JOINT).is_ok() || old.replace(JOINT).is_ok());
    let mut old = FuseStore::new(old, old_passes, kept);
    let mut set = FuseSet::new(MemSet::new(memory), set_passes, kept);
    let answer = moved(memory, &mut old, &mut set);
    (answer, (old.into_inner(), set.into_inner()))
}

// Whether another move ends with both documents in the set, and none in the old store.
fn is_finished<'a>(memory: &'a Memory, (mut old, mut set): Both<'a>) -> bool {
    let is_done = moved(memory, &mut old, &mut set) == "done";
    let is_emptied = old.content() == Some(b"DMPG\x01\x00\x00".as_slice());
    is_done && is_emptied && holds(memory, set, [FIRST, THIRD])
}

#[test]
fn a_move_stops_at_each_call(rt: HostRuntime) {
    let memory = Refusing::new(rt.alloc(), u64::MAX);
    for kept in [Kept::Old, Kept::New] {
        for old_passes in 0..=OLD_CALLS {
            for set_passes in 0..=SET_CALLS {
                let passes = (old_passes, set_passes);
                let is_whole = passes == (OLD_CALLS, SET_CALLS);
                let (answer, both) = moved_once(&rt, &memory, passes, kept);
                assert!(rt; answer == if is_whole { "done" } else { "Device" });
                assert!(rt; are_joined(&both) && is_finished(&memory, both));
            }
        }
    }
}

#[test]
fn each_growth_of_a_move_is_refused(rt: HostRuntime) {
    for passes in 0..=MANY {
        assert!(rt; passes < MANY);
        let memory = Refusing::new(rt.alloc(), u64::from(passes));
        let (answer, both) = moved_once(&rt, &memory, (MANY, MANY), Kept::Old);
        assert!(rt; are_joined(&both), "{passes}");
        if !memory.is_spent() {
            assert!(rt; answer == "done" && passes > 1);
            break;
        }
        // The first growth is that of the old store's content.
        assert!(rt; answer == if passes == 0 { "done" } else { "Memory" });
        assert!(rt; is_finished(&memory, both), "{passes}");
    }
}
