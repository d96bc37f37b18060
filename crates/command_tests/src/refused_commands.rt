//! Each command over memory that is refused, growth by growth.

use crate::calls::{CALLS, Call, Whole, alone, alone_whole, audit, is_whole, streams_of};
use std::alloc::Global;
use std::process::Abort;
use test_helpers::Refusing;

// More growths than any of these commands asks for.
const MOST_GROWTHS: u64 = 1_000;

const LINE: &[u8] = b"refused Memory\n";

// What the audit says.
const TWICE: &str =
    "file 1 NotALedger\nnumber ledger 2 of 0 ledger 3 of 0\nfree ledger 2 of 0 ledger 3 of 0\n";

// Whether a print was refused after its save: its line is out, the ID is used, and the labels before the
// refusal are out.
fn is_cut_short(ended: &Whole, whole: &Whole, call: Call) -> bool {
    matches!(call, Call::Print | Call::PrintAuto)
        && ended.status == 1
        && whole.writer.starts_with(&ended.writer)
        && ended.errors.strip_prefix(whole.errors.as_slice()) == Some(LINE)
        && ended.files == whole.files
}

// Whether a command whose growth was refused has done nothing, or a print is cut short, or all is done, since std asks
// for less where its first growth is refused. Where none was refused, all is done.
fn ends_well(ended: &Whole, whole: &Whole, call: Call, is_spent: bool) -> bool {
    let is_refused = ended.is_refused(call, LINE) || is_cut_short(ended, whole, call);
    is_spent && is_refused || is_whole(ended, ended.writer.as_slice(), whole)
}

// Refuses the first growth of the command at a place, the second and so on, until none is, and says how many there
// were.
fn refusals_of(rt: &impl Abort, alloc: Global, (place, call): (usize, Call)) -> u64 {
    let whole = alone_whole(alloc, call).expect(rt, "it is done");
    for passes in 0..MOST_GROWTHS {
        let memory = Refusing::new(alloc, passes);
        let streams = streams_of(alloc, call.input());
        let ended = alone(&memory, alloc, streams, call).expect(rt, "it is done");
        assert!(rt;
            ends_well(&ended, &whole, call, memory.is_spent()),
            "{place} {passes}"
        );
        if !memory.is_spent() {
            return passes;
        }
    }
    panic!(rt; "growths without end")
}

// Whether a command takes no memory of its own.
#[rattlefmt::skip]
fn takes_none(call: Call) -> bool {
    matches!(call, Call::Ticket | Call::Ledger | Call::Give | Call::GiveLast | Call::Take | Call::Left)
}

// The growths of a world are refused in `refused_worlds`.
#[test]
fn commands_are_refused_by_name(rt: HostRuntime) {
    for (place, call) in CALLS.iter().enumerate() {
        if !matches!(call, Call::World) {
            let refusals = refusals_of(&rt, rt.alloc(), (place, *call));
            assert!(rt; (refusals == 0) == takes_none(*call), "{place} {refusals}");
        }
    }
}

// What the audit writes over this memory; its status is to be 1.
fn audited(memory: &Refusing<Global>, alloc: Global) -> Option<Vec<u8>> {
    let mut streams = streams_of(alloc, b"".as_slice());
    if audit(memory, &mut streams) != 1 {
        return None;
    }
    Some(streams.output.into_writer())
}

// An audit whose growth is refused says so in place of the lines that it can't write, and hides no fault before.
#[test]
fn an_audit_is_refused_by_name(rt: HostRuntime) {
    for passes in 0..MOST_GROWTHS {
        let memory = Refusing::new(rt.alloc(), passes);
        let written = audited(&memory, rt.alloc()).expect(&rt, "no refusal");
        let lines = str::from_utf8(written.as_slice()).unwrap_or("");
        let begins = passes == 0 || lines.starts_with("file 1 NotALedger\n");
        assert!(rt;
            lines == TWICE || memory.is_spent() && begins && lines.ends_with("refused Memory\n"),
            "{passes}"
        );
        if !memory.is_spent() {
            return;
        }
    }
    panic!(rt; "growths without end")
}
