// A desk whose set stops after each number of its calls, under both ends of a stopped save. From the call that it stops
// at no call that saves is done; and a desk that is opened again holds what was answered, or one save more.
use super::calls::{CALLS, Memory, filled, made};
use super::{FIRST, FULL, THIRD, WHOLE};
use dm_assembly_desk::{Desk, DeskFault};
use dm_store::{FuseSet, Kept, MemSet, StoreSet};
use std::process::Abort;
use test_helpers::Refusing;

type Fused<'a> = FuseSet<MemSet<&'a Memory>>;

// The files of the documents 0 and 9, where no bytes stand for a document that has none.
pub type Files = [&'static [u8]; 2];

// What is saved at first, and after each save.
#[rattlefmt::skip]
const SAVED: [Files; 6] =
    [[b"", THIRD], [FIRST, THIRD], [WHOLE, THIRD], [WHOLE, FULL], [WHOLE, b""], [WHOLE, THIRD]];

// How many saves are kept where the set stops after 0, 1, 2 calls and so on: where the save that it stops at has left
// the old file, and where it has left the new one. A desk is opened by two calls: the keys, and a load.
#[rattlefmt::skip]
const STOPS: [(usize, usize); 8] = [(0, 0), (0, 0), (0, 1), (1, 2), (2, 3), (3, 4), (4, 5), (5, 5)];

// The set of a desk after all calls, or after the first that was stopped.
fn used<'a, S: StoreSet>(rt: &impl Abort, memory: &'a Memory, mut desk: Desk<S, &'a Memory>) -> S {
    for (call, wanted) in CALLS.iter() {
        let answer = made(&mut desk, memory, call);
        if answer != *wanted {
            assert!(rt; answer == "Save" && made(&mut desk, memory, call) == "Failed");
            break;
        }
    }
    desk.close()
}

// The set after a desk is opened and used, or after what was stopped.
fn stopped<'a>(rt: &impl Abort, memory: &'a Memory, passes: u32, kept: Kept) -> Fused<'a> {
    let set = FuseSet::new(filled(rt, memory), passes, kept);
    match Desk::open(memory, set, 4) {
        Ok(desk) => used(rt, memory, desk),
        Err(refused) => {
            assert!(rt; refused.fault == DeskFault::Device);
            refused.store
        }
    }
}

// Whether a set has these files.
fn has(set: &MemSet<&Memory>, [zero, nine]: Files) -> bool {
    set.content(0).unwrap_or(b"") == zero && set.content(9).unwrap_or(b"") == nine
}

// Whether a desk opens on a set, and the set has these files.
pub fn holds<'a>(memory: &'a Memory, set: MemSet<&'a Memory>, files: Files) -> bool {
    match Desk::open(memory, set, 4) {
        Ok(desk) => has(&desk.close(), files),
        Err(_) => false,
    }
}

#[test]
fn the_set_stops_at_each_call(rt: HostRuntime) {
    let memory = Refusing::new(rt.alloc(), u64::MAX);
    for (passes, (old, new)) in STOPS.iter().enumerate() {
        for (kept, saves) in [(Kept::Old, *old), (Kept::New, *new)] {
            let set = stopped(&rt, &memory, passes as u32, kept);
            assert!(rt;
                set.spent() == (passes < 7) && saves < SAVED.len(),
                "{passes}"
            );
            assert!(rt;
                holds(&memory, set.into_inner(), SAVED[saves]),
                "{passes} {kept:?}"
            );
        }
    }
}
