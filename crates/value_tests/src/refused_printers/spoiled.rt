// Ledgers and tickets of which one byte is changed or added, or the end is cut off. Each ledger is refused by the name
// that the table of the format says, or is another sound ledger, with as many free numbers as it says. Each ticket is
// none, by the table of the format, or is another ticket; and a printer takes that one, or refuses it by the name of
// the first of its rules that applies.
use super::table::{answer, number};
use dm_print_ledger::{Printer, Ticket};
use dm_store::MemStore;
use std::alloc::{AllocError, Global};
use test_helpers::{count, spoiled};

// The printer 7: the serial 3, the ranges 1 to 4, 7 to 9 and 20 to 21, and the last serials of the givers 3 and 9.
const LEDGER: &[u8] =
    b"DMLG\x02\x00\x07\x00\x03\x03\x00\x01\x00\x04\x00\x07\x00\x09\x00\x14\x00\x15\
    \x02\x00\x03\x00\x00\x00\x09\x00\x02\xff\xf6";

const FREE: [(u32, u32); 3] = [(1, 4), (7, 9), (20, 21)];

const GIVERS: [(u32, u32); 2] = [(3, 0), (9, 2)];

// The numbers 0 to 9 in version 1, of which those from 3 on are free.
const FIRST_LEDGER: &[u8] = b"DMLG\x01\x00\x00\x00\x09\x00\x03\xff\xfc";

// The names of the refusals of a ledger, and the answer to a sound one.
const NAMES: [&str; 5] = ["NotALedger", "Version", "Damaged", "Number", "opened"];

// How many numbers are free in a sound ledger.
fn left_in(ledger: &[u8]) -> u32 {
    if ledger.get(4) == Some(&1) {
        let (last, next) = (number(ledger, 7), number(ledger, 9));
        last.saturating_add(1).saturating_sub(next)
    } else {
        65_535u32.saturating_sub(number(ledger, ledger.len().saturating_sub(2)))
    }
}

// Opens bytes as the ledger of the printer 7, and gives the name of the refusal, or `opened`.
fn open(alloc: Global, ledger: &[u8]) -> Result<&'static str, AllocError> {
    let store = MemStore::with(alloc, ledger.to_vec(alloc)?);
    Ok(match Printer::open(alloc, store, 7) {
        Ok(printer) => {
            let has_all = printer.left() == left_in(ledger);
            if has_all { "opened" } else { "another ledger" }
        }
        Err(refused) => refused.fault.name(),
    })
}

// The counts are those of a reader in another language.
#[test]
fn each_byte_of_a_ledger_is_spoiled(rt: HostRuntime) {
    for (ledger, wanted) in [
        (LEDGER, [2047, 509, 12042, 510, 2077]),
        (FIRST_LEDGER, [2047, 509, 3849, 0, 520]),
    ] {
        let mut counts = [0u32; 5];
        for copy in spoiled(rt.alloc(), ledger).expect(&rt, "it is done").iter() {
            let name = open(rt.alloc(), copy.as_slice()).expect(&rt, "it is done");
            assert!(rt; name == answer(copy.as_slice(), 7), "{copy:?}");
            count(&mut counts, &NAMES, name);
        }
        assert!(rt; counts == wanted);
    }
}

// The ticket 3 of the printer 9, for the printer 7: the numbers 30 to 35. A ticket has, of two bytes each, the giver,
// its serial, the receiver, and the first and the last number.
const TICKET: &[u8] = b"\x00\x09\x00\x03\x00\x07\x00\x1e\x00\x23";

// What is done with a copy of a ticket: it is none, it is taken, or it is refused by a name.
const ANSWERS: [&str; 5] = ["none", "taken", "Receiver", "Old", "Overlap"];

// What the rules say of bytes.
fn wanted(bytes: &[u8]) -> &'static str {
    let (first, last) = (number(bytes, 6), number(bytes, 8));
    if bytes.len() != 10 || first > last || last > 64_515 {
        return "none";
    }
    let (giver, serial) = (number(bytes, 0), number(bytes, 2));
    if number(bytes, 4) != 7 || giver == 7 {
        return "Receiver";
    }
    for (taken, least) in GIVERS {
        if taken == giver && serial <= least {
            return "Old";
        }
    }
    for (least, most) in FREE {
        if least <= last && first <= most {
            return "Overlap";
        }
    }
    "taken"
}

// What a printer answers to the ticket of some bytes.
fn take(alloc: Global, bytes: &[u8]) -> Result<&'static str, AllocError> {
    let Some(ticket) = Ticket::of_bytes(bytes) else {
        return Ok("none");
    };
    let store = MemStore::with(alloc, LEDGER.to_vec(alloc)?);
    let Ok(mut printer) = Printer::open(alloc, store, 7) else {
        return Ok("no printer");
    };
    Ok(match printer.take(&ticket) {
        Ok(()) => "taken",
        Err(fault) => fault.name(),
    })
}

// The counts are those of a reader in another language.
#[test]
fn each_byte_of_a_ticket_is_spoiled(rt: HostRuntime) {
    let mut counts = [0u32; 5];
    for copy in spoiled(rt.alloc(), TICKET).expect(&rt, "it is done").iter() {
        let name = take(rt.alloc(), copy.as_slice()).expect(&rt, "it is done");
        assert!(rt; name == wanted(copy.as_slice()), "{copy:?}");
        count(&mut counts, &ANSWERS, name);
    }
    assert!(rt; counts == [3335, 1515, 511, 3, 22]);
}
