// A printer to which each growth of memory is refused in turn. A call that was refused for lack of memory is done when
// it is made again.
use dm_encodation::Scheme;
use dm_print_ledger::{Printer, Range, Ticket};
use dm_size::Size;
use dm_store::{MemStore, Store};
use std::alloc::Global;
use std::process::Abort;
use test_helpers::Refusing;

pub type Memory = Refusing<Global>;

// A call on the printer 0 of the numbers 0 to 9.
pub enum Call {
    // A print of a document of two labels, which is to get this number.
    Print(u16),
    // The numbers 5 and 6 are given to the printer 3.
    Give,
    // The ticket 0 of the printer 1 is taken: the numbers 20 and 21.
    Take,
}

pub const CALLS: [Call; 4] = [Call::Print(0), Call::Give, Call::Take, Call::Print(1)];

pub const RANGE: Range = Range { first: 0, last: 9 };

const GIVEN: [u8; 10] = [0, 0, 0, 0, 0, 3, 0, 5, 0, 6];

const TAKEN: [u8; 10] = [0, 1, 0, 0, 0, 0, 0, 20, 0, 21];

pub const SECOND_PRINT: &[u8] =
    b"DMLG\x02\x00\x00\x00\x01\x03\x00\x02\x00\x04\x00\x07\x00\x09\x00\x14\x00\x15\
    \x01\x00\x01\x00\x00\xff\xf7";

// More growths than all calls together ask for.
const MANY: u32 = 1000;

fn done_if(is_right: bool) -> &'static str {
    if is_right { "done" } else { "another answer" }
}

// What is answered to a print.
fn printed<S: Store>(printer: &mut Printer<S, &Memory>, id: u16) -> &'static str {
    match printer.print(b"1234", Size::Side12, Scheme::Ascii) {
        Ok(job) => done_if(job.id().number() == id),
        Err(fault) => fault.name(),
    }
}

// What is answered where the ticket is taken.
fn taken<S: Store>(printer: &mut Printer<S, &Memory>) -> &'static str {
    let Some(ticket) = Ticket::of_bytes(&TAKEN) else {
        return "no ticket";
    };
    match printer.take(&ticket) {
        Ok(()) => "done",
        Err(fault) => fault.name(),
    }
}

// What is answered to a call.
pub fn made<S: Store>(printer: &mut Printer<S, &Memory>, call: &Call) -> &'static str {
    match call {
        Call::Print(id) => printed(printer, *id),
        Call::Give => match printer.give(3, Range { first: 5, last: 6 }) {
            Ok(ticket) => done_if(ticket.bytes() == GIVEN),
            Err(fault) => fault.name(),
        },
        Call::Take => taken(printer),
    }
}

type MemPrinter<'a> = Printer<MemStore<&'a Memory>, &'a Memory>;

// The printer over an empty store, created again where it was refused.
fn created<'a>(memory: &'a Memory) -> Option<MemPrinter<'a>> {
    let mut store = MemStore::new(memory);
    for _time in 0..2 {
        store = match Printer::create(memory, store, 0, RANGE) {
            Ok(printer) => return Some(printer),
            Err(refused) => refused.store,
        };
    }
    None
}

// The printer over what is saved, opened again where it was refused.
fn opened<'a>(memory: &'a Memory, mut store: MemStore<&'a Memory>) -> Option<MemPrinter<'a>> {
    for _time in 0..2 {
        store = match Printer::open(memory, store, 0) {
            Ok(printer) => return Some(printer),
            Err(refused) => refused.store,
        };
    }
    None
}

// Whether a call is refused, and is done when it is made again; or none, if it isn't done then.
fn is_refused<'a, S: Store>(
    printer: &mut Printer<S, &'a Memory>,
    memory: &'a Memory,
    call: &Call,
) -> Option<bool> {
    let answer = made(printer, call);
    if answer == "done" {
        return Some(false);
    }
    let is_of_memory = answer == "Memory" && memory.is_spent();
    (is_of_memory && made(printer, call) == "done").then_some(true)
}

// Makes all calls: which of them are refused, as bits.
fn refused_calls(rt: &impl Abort, memory: &Memory) -> u8 {
    let printer = created(memory).expect(rt, "it is created");
    let mut printer = opened(memory, printer.close()).expect(rt, "it is opened");
    let mut refused = 0u8;
    for (place, call) in CALLS.iter().enumerate() {
        if is_refused(&mut printer, memory, call).expect(rt, "it is done") {
            refused |= 1u8 << (place % 8);
        }
    }
    assert!(rt; printer.close().content() == Some(SECOND_PRINT));
    refused
}

#[test]
fn each_growth_is_refused(rt: HostRuntime) {
    let mut refused = 0u8;
    for passes in 0..=MANY {
        assert!(rt; passes < MANY);
        let memory = Refusing::new(rt.alloc(), u64::from(passes));
        refused |= refused_calls(&rt, &memory);
        if !memory.is_spent() {
            break;
        }
    }
    assert!(rt; refused == 0b1111, "each call takes memory");
}
