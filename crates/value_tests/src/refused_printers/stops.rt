// A printer whose store stops after each number of its calls, under both ends of a stopped save. From the call that it
// stops at no call is done; and a printer that is opened again goes on with what was answered, or with one save more.
use super::calls::{CALLS, Memory, RANGE, SECOND_PRINT, made};
use dm_print_ledger::{CreateFault, OpenFault, Printer};
use dm_store::{FuseStore, Kept, MemStore, Store};
use std::alloc::Allocator;
use std::process::Abort;
use test_helpers::Refusing;

type Fused<'a> = FuseStore<MemStore<&'a Memory>>;

// What is saved after each save, and how many numbers are free then.
#[rattlefmt::skip]
const SAVED: [(&[u8], u32); 5] = [
    (b"DMLG\x02\x00\x00\x00\x00\x01\x00\x00\x00\x09\x00\xff\xf5", 10),
    (b"DMLG\x02\x00\x00\x00\x00\x01\x00\x01\x00\x09\x00\xff\xf6", 9),
    (b"DMLG\x02\x00\x00\x00\x01\x02\x00\x01\x00\x04\x00\x07\x00\x09\x00\xff\xf8", 7),
    (b"DMLG\x02\x00\x00\x00\x01\x03\x00\x01\x00\x04\x00\x07\x00\x09\x00\x14\x00\x15\
        \x01\x00\x01\x00\x00\xff\xf6", 9),
    (SECOND_PRINT, 8),
];

// How many saves are kept where the store stops after 0, 1, 2 calls and so on: where the save that it stops at has left
// the old ledger, and where it has left the new one. The first and the third call are loads.
#[rattlefmt::skip]
const STOPS: [(usize, usize); 8] = [(0, 0), (0, 1), (1, 1), (1, 2), (2, 3), (3, 4), (4, 5), (5, 5)];

// The store of a printer after all calls, or after the first that was stopped.
fn used<'a, S: Store>(rt: &impl Abort, mut printer: Printer<S, &'a Memory>) -> S {
    for call in CALLS.iter() {
        let answer = made(&mut printer, call);
        if answer != "done" {
            assert!(rt; answer == "Save" && made(&mut printer, call) == "Failed");
            break;
        }
    }
    printer.close()
}

// The store after a printer is created, opened and used, or after what was stopped.
fn stopped<'a>(rt: &impl Abort, memory: &'a Memory, passes: u32, kept: Kept) -> Fused<'a> {
    let store = FuseStore::new(MemStore::new(memory), passes, kept);
    let created = match Printer::create(memory, store, 0, RANGE) {
        Ok(printer) => printer,
        Err(refused) => {
            assert!(rt; refused.fault == CreateFault::Device);
            return refused.store;
        }
    };
    match Printer::open(memory, created.close(), 0) {
        Ok(printer) => used(rt, printer),
        Err(refused) => {
            assert!(rt; refused.fault == OpenFault::Device);
            refused.store
        }
    }
}

// How many numbers are free for a printer that opens on a store, or why none opens.
fn left_in<A: Allocator + Copy, S: Store + Drop>(alloc: A, store: S) -> Result<u32, OpenFault> {
    match Printer::open(alloc, store, 0) {
        Ok(printer) => Ok(printer.left()),
        Err(refused) => Err(refused.fault),
    }
}

// Whether a store holds what was saved by so many saves, and a printer opens on it; or nothing, and none does.
fn holds<'a>(memory: &'a Memory, store: MemStore<&'a Memory>, saves: usize) -> bool {
    if saves == 0 || saves > SAVED.len() {
        let is_empty = store.content().is_none();
        return is_empty && left_in(memory, store) == Err(OpenFault::Absent);
    }
    let (bytes, left) = SAVED[saves - 1];
    let is_saved = store.content() == Some(bytes);
    is_saved && left_in(memory, store) == Ok(left)
}

#[test]
fn the_store_stops_at_each_call(rt: HostRuntime) {
    let memory = Refusing::new(rt.alloc(), u64::MAX);
    for (passes, (old, new)) in STOPS.iter().enumerate() {
        for (kept, saves) in [(Kept::Old, *old), (Kept::New, *new)] {
            let store = stopped(&rt, &memory, passes as u32, kept);
            assert!(rt; store.spent() == (passes < 7), "{passes}");
            assert!(rt;
                holds(&memory, store.into_inner(), saves),
                "{passes} {kept:?}"
            );
        }
    }
}
