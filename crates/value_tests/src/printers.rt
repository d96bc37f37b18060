//! Printers over stores in memory, from their first ledger on: labels, the bytes that are saved, and tickets. And
//! ledgers by their bytes, of both versions, sound and unsound.

use dm_append_label::open_label;
use dm_encodation::Scheme;
use dm_print_ledger::{
    CreateFault, GiveFault, Job, OpenFault, PrintFault, Printer, Range, TakeFault, Ticket,
};
use dm_size::Size;
use dm_store::{FuseStore, Kept, MemStore, NextSave, Store};
use std::alloc::Global;
use std::process::Abort;

type MemPrinter = Printer<MemStore>;

// The printer of a number for a range, on an empty store.
fn created(rt: &impl Abort, alloc: Global, number: u16, first: u16, last: u16) -> MemPrinter {
    let range = Range { first, last };
    let created = Printer::create(alloc, MemStore::new(alloc), number, range);
    created.ok().expect(rt, "it is created")
}

// As `Printer::print`, of labels of side 12 in ASCII. These calls have no contract, so that a test which makes many of
// them is proved in little time.
fn print<S: Store>(printer: &mut Printer<S>, document: &[u8]) -> Result<Job, PrintFault> {
    printer.print(document, Size::Side12, Scheme::Ascii)
}

// The ticket of a range for a receiver, by its bytes.
fn give<S: Store>(
    printer: &mut Printer<S>,
    to: u16,
    first: u16,
    last: u16,
) -> Result<[u8; 10], GiveFault> {
    Ok(printer.give(to, Range { first, last })?.bytes())
}

// Whether ten bytes are a ticket's that is taken, or refused so.
fn is_taken<S: Store>(
    printer: &mut Printer<S>,
    bytes: &[u8; 10],
    answer: Result<(), TakeFault>,
) -> bool {
    match Ticket::of_bytes(bytes) {
        Some(ticket) => printer.take(&ticket) == answer,
        None => false,
    }
}

// Whether the labels of a job are those of its document, in order.
fn is_whole(alloc: Global, job: &mut Job, document: &[u8]) -> bool {
    let (id, count) = (job.id(), job.count());
    let mut rest = document;
    for m in 1..17u8 {
        let Some(grid) = job.next_label() else {
            return m - 1 == count && rest.is_empty();
        };
        let Ok(opened) = open_label(alloc, &grid) else {
            return false;
        };
        let page = opened.page;
        let Some(after) = rest.strip_prefix(page.bytes()) else {
            return false;
        };
        if (page.id(), page.m(), page.n()) != (id, m, count) {
            return false;
        }
        rest = after;
    }
    false
}

// Whether a printer has one number more, and is used up then.
fn is_used_up(mut printer: MemPrinter) -> Result<bool, PrintFault> {
    let number = print(&mut printer, b"")?.id().number();
    let fault = print(&mut printer, b"").err();
    let saved = b"DMLG\x02\x00\x07\x00\x00\x00\x00\xff\xff".as_slice();
    let is_saved = printer.close().content() == Some(saved);
    Ok(number == 64_515 && fault == Some(PrintFault::Exhausted) && is_saved)
}

#[test]
fn documents_are_printed(rt: HostRuntime) {
    let mut printer = created(&rt, rt.alloc(), 7, 64_514, 64_515);
    let mut job = print(&mut printer, b"12345678").expect(&rt, "it is done");
    assert!(rt; (job.id().number(), job.count(), printer.left()) == (64_514, 4, 1));
    assert!(rt;
        is_whole(rt.alloc(), &mut job, b"12345678") && is_used_up(printer).expect(&rt, "it is done")
    );
}

// A save that fails, how many numbers are free once the printer is opened again, and the ID of the next job.
const FAILED_SAVES: [(NextSave, u32, (u8, u8)); 2] = [
    (NextSave::FaultOld, 10, (1, 1)),
    (NextSave::FaultNew, 9, (1, 2)),
];

// Whether a printer opens on a store with so many free numbers, and its next job has this ID.
fn goes_on(alloc: Global, store: MemStore, left: u32, words: (u8, u8)) -> Result<bool, PrintFault> {
    let Ok(mut printer) = Printer::open(alloc, store, 7) else {
        return Ok(false);
    };
    Ok(printer.left() == left && print(&mut printer, b"")?.id().words() == words)
}

#[test]
fn saves_fail(rt: HostRuntime) {
    for (next, left, words) in FAILED_SAVES {
        let mut printer = created(&rt, rt.alloc(), 7, 0, 9);
        printer.set_next(next);
        let fault = print(&mut printer, b"").err();
        let later = print(&mut printer, b"").err();
        assert!(rt; (fault, later) == (Some(PrintFault::Save), Some(PrintFault::Failed)));
        assert!(rt; goes_on(rt.alloc(), printer.close(), left, words).expect(&rt, "it is done"));
    }
}

// A printer is created on a store: the store then, and the fault, if there is one.
fn create<S: Store>(alloc: Global, store: S) -> (S, Option<CreateFault>) {
    match Printer::create(alloc, store, 7, Range { first: 0, last: 9 }) {
        Ok(printer) => (printer.close(), None),
        Err(refused) => (refused.store, Some(refused.fault)),
    }
}

const DEVICE: Option<CreateFault> = Some(CreateFault::Device);

const EXISTS: Option<CreateFault> = Some(CreateFault::Exists);

#[test]
fn nothing_is_created_over_what_a_failed_save_left(rt: HostRuntime) {
    let mut store = MemStore::new(rt.alloc());
    store.set_next(NextSave::FaultNew);
    let (store, fault) = create(rt.alloc(), store);
    assert!(rt; fault == DEVICE && create(rt.alloc(), store).1 == EXISTS);
}

// After how many calls a store stops, what its stopped save leaves, and the fault of `create`; and that of another
// `create` on the store within.
const STOPS: [(u32, Kept, Option<CreateFault>, Option<CreateFault>); 5] = [
    (0, Kept::Old, DEVICE, None),
    (0, Kept::New, DEVICE, None),
    (1, Kept::Old, DEVICE, None),
    (1, Kept::New, DEVICE, EXISTS),
    (2, Kept::Old, None, EXISTS),
];

#[test]
fn stores_stop_while_a_printer_is_created(rt: HostRuntime) {
    for (passes, kept, fault, later) in STOPS {
        let store = FuseStore::new(MemStore::new(rt.alloc()), passes, kept);
        let (store, found) = create(rt.alloc(), store);
        let (_, then) = create(rt.alloc(), store.into_inner());
        assert!(rt; (found, then) == (fault, later), "{passes} {kept:?}");
    }
}

// Two tickets of the printer 7 for the printer 8.
const FIRST: [u8; 10] = [0, 7, 0, 0, 0, 8, 0, 5, 0, 9];

const SECOND: [u8; 10] = [0, 7, 0, 1, 0, 8, 0, 2, 0, 3];

// Serials rise by one, and a number in the middle leaves two ranges.
#[test]
fn tickets_are_given(rt: HostRuntime) {
    let mut giver = created(&rt, rt.alloc(), 7, 0, 9);
    assert!(rt; give(&mut giver, 8, 5, 9) == Ok(FIRST) && give(&mut giver, 8, 2, 3) == Ok(SECOND));
    let saved = b"DMLG\x02\x00\x07\x00\x02\x02\x00\x00\x00\x01\x00\x04\x00\x04\x00\xff\xfc";
    assert!(rt; giver.close().content() == Some(saved.as_slice()));
}

// The second is taken: then the first is old.
#[test]
fn tickets_are_taken(rt: HostRuntime) {
    let mut taker = created(&rt, rt.alloc(), 8, 10, 19);
    assert!(rt; is_taken(&mut taker, &SECOND, Ok(())));
    assert!(rt; is_taken(&mut taker, &FIRST, Err(TakeFault::Old)));
    let saved =
        b"DMLG\x02\x00\x08\x00\x00\x02\x00\x02\x00\x03\x00\x0a\x00\x13\x01\x00\x07\x00\x01\xff\xf3";
    assert!(rt; taker.close().content() == Some(saved.as_slice()));
}

// How many numbers are free to the printer 7 of a store, or why it is refused.
fn opened(alloc: Global, store: MemStore) -> Result<u32, OpenFault> {
    match Printer::open(alloc, store, 7) {
        Ok(printer) => Ok(printer.left()),
        Err(refused) => Err(refused.fault),
    }
}

const DAMAGED: Result<u32, OpenFault> = Err(OpenFault::Damaged);

// Ledgers that are more than a byte away from a sound one, or sound themselves.
#[rattlefmt::skip]
const LEDGERS: [(&[u8], Result<u32, OpenFault>); 14] = [
    // Version 1: sound, and used up; a wrong check, a next number that is out of the range, no range, a great number.
    (b"DMLG\x01\x00\x00\x00\x09\x00\x01\xff\xfe", Ok(9)),
    (b"DMLG\x01\x00\x00\x00\x09\x00\x0a\xff\xf5", Ok(0)),
    (b"DMLG\x01\x00\x00\x00\x09\x00\x01\xff\xff", DAMAGED),
    (b"DMLG\x01\x00\x00\x00\x09\x00\x0b\xff\xf4", DAMAGED),
    (b"DMLG\x01\x00\x09\x00\x08\x00\x09\xff\xf6", DAMAGED),
    (b"DMLG\x01\xfc\x04\xfc\x04\xfc\x04\x03\xfb", DAMAGED),
    // Version 2: ranges that touch, that meet, that fall, and that don't.
    (b"DMLG\x02\x00\x07\x00\x00\x02\x00\x02\x00\x09\x00\x0a\x00\x0b\x00\xff\xf5", DAMAGED),
    (b"DMLG\x02\x00\x07\x00\x00\x02\x00\x02\x00\x09\x00\x09\x00\x0b\x00\xff\xf4", DAMAGED),
    (b"DMLG\x02\x00\x07\x00\x00\x02\x00\x0b\x00\x0c\x00\x02\x00\x09\x00\xff\xf5", DAMAGED),
    (b"DMLG\x02\x00\x07\x00\x00\x02\x00\x02\x00\x09\x00\x0b\x00\x0c\x00\xff\xf5", Ok(10)),
    // No range, a great number, no free number; a wrong check before another number.
    (b"DMLG\x02\x00\x07\x00\x00\x01\x00\x09\x00\x02\x00\xff\xff", DAMAGED),
    (b"DMLG\x02\x00\x07\x00\x00\x01\xfc\x04\xfc\x04\x00\xff\xfe", DAMAGED),
    (b"DMLG\x02\x00\x07\xff\xff\x00\x00\xff\xff", Ok(0)),
    (b"DMLG\x02\x00\x08\x00\x00\x00\x00\xff\xfe", DAMAGED),
];

#[test]
fn ledgers_of_both_versions(rt: HostRuntime) {
    for (place, (bytes, answer)) in LEDGERS.iter().enumerate() {
        let store = MemStore::with(
            rt.alloc(),
            bytes.to_vec(rt.alloc()).expect(&rt, "it is done"),
        );
        assert!(rt; opened(rt.alloc(), store) == *answer, "{place}");
    }
}

#[test]
fn no_ledger_is_read_or_there(rt: HostRuntime) {
    let mut store = MemStore::new(rt.alloc());
    store.set_load(true);
    assert!(rt; opened(rt.alloc(), store) == Err(OpenFault::Device));
    assert!(rt; opened(rt.alloc(), MemStore::new(rt.alloc())) == Err(OpenFault::Absent));
}
