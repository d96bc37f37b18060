//! Scripts and worlds whose memory is refused, one growth after another. A growth that is refused is asked for once
//! more by std, in its least size, so two in a row are refused.

use dm_assembly_desk::{Accepted, AskFault, DeskFault, ExportFault, Kind, ScanFault};
use dm_event_history::{Event, Reply};
use dm_event_world::{World, WorldFault, is_honest};
use dm_print_ledger::{GiveFault, OpenFault, PrintFault, TakeFault};
use relay_script::{Script, ScriptFault, read_script};
use std::alloc::Allocator;
use test_helpers::Refusing;

// More growths than any of these scripts and runs asks for.
const MOST_GROWTHS: u64 = 1_000;

const SCRIPT: &[u8] =
    b"range 0 9\nrange 10 19\ndesks 2 4\nprint 0 12 ascii 31323334 -\nprint 1 12 ascii - -\n\
    scan 0 0 - 1,1;2,2\nscan 0 0 - -\ngive 0 1 0 4 -\nask 0 0101\n";

const NO_SCRIPT: &[u8] =
    b"range 0 9\ndesks 2 4\nprint 0 12 ascii 31323334 -\nscan 0 0 - 1,1;2,2\nask 0\n";

/// Labels are gathered in any order, and twice, and a desk that was shown none holds nothing; then an export and a
/// ticket leave.
pub const GATHERING: &str =
    "range 0 9\ndesks 2 4\nprint 0 12 ascii 31323334 -\nscan 0 1 - -\nscan 0 1 - -\nscan 0 0 - -\n\
    ask 0 0101\nask 1 0101\nexport 0 0101\ngive 0 1 5 9 -\n";

/// What the replies to its events tell.
pub const GATHERED: &str =
    "printed 0101 0 2,0101 2/2 new,0101 2/2 again,0101 1/2 complete,document 1234,not held,\
    exported,given";

const FAILING: &str =
    "range 0 9\ndesks 1 4\nprint 0 12 ascii 31323334 fault-new\nprint 0 12 ascii 31323334 -\n\
    restart printer 0\nprint 0 12 ascii 31323334 -\n";

const FAILED: &str = "save,failed,restarted,printed 0102 0 2";

const OVERLAPPING: &str = "range 0 9\nrange 5 7\ndesks 1 4\n";

// Printers that are stopped after their saves: the first ID is used by a label that left, the second by
// none, so the third label that is there is the second of the third ID.
const STOPPING_PRINTERS: &str =
    "range 0 9\nrange 10 19\ndesks 1 4\nprint 0 12 ascii 31323334 after:1\n\
    restart printer 0\nprint 0 12 ascii 35363738 in-new\nrestart printer 0\nprint 0 12 ascii 35363738 -\n\
    scan 0 0 - -\nscan 0 1 - -\nscan 0 2 - -\nask 0 0103\ngive 0 1 5 5 after:0\nrestart printer 0\n\
    give 0 1 5 5 -\ngive 0 1 6 6 -\ntake 1 0 in-new\nrestart printer 1\ntake 1 0 -\n";

const STOPPED_PRINTERS: &str =
    "stopped,restarted,stopped,restarted,printed 0103 1 2,0101 1/2 new,0103 1/2 new,0103 2/2 complete,\
    document 5678,stopped,restarted,not free,given,stopped,restarted,old";

// Desks that are stopped after their saves: each page is held once they are restarted, and no page after a forget.
const STOPPING_DESKS: &str =
    "range 0 9\ndesks 2 4\nprint 0 12 ascii 31323334 -\nscan 0 0 in-new -\n\
    restart desk 0\nscan 0 0 - -\nscan 0 1 after:0 -\nrestart desk 0\nask 0 0101\nexport 0 0101\n\
    import 1 0 in-new\nrestart desk 1\nask 1 0101\nforget 1 0101 after:0\nrestart desk 1\nask 1 0101\n";

const STOPPED_DESKS: &str =
    "printed 0101 0 2,stopped,restarted,0101 1/2 again,stopped,restarted,document 1234,exported,stopped,restarted,\
    document 1234,stopped,restarted,not held";

// What a print tells: the ID, the number of its first label, and how many they are.
fn printed(id: (u8, u8), first: usize, count: u8) -> &'static str {
    match (id, first, count) {
        ((1, 1), 0, 2) => "printed 0101 0 2",
        ((1, 2), 0, 2) => "printed 0102 0 2",
        ((1, 3), 1, 2) => "printed 0103 1 2",
        _ => "another print",
    }
}

// What a scan tells of a page of two.
fn scanned(accepted: &Accepted) -> &'static str {
    if accepted.n != 2 {
        return "another page";
    }
    match (accepted.id.words(), accepted.m, accepted.kind) {
        ((1, 1), 1, Kind::New) => "0101 1/2 new",
        ((1, 1), 1, Kind::Again) => "0101 1/2 again",
        ((1, 1), 1, Kind::Complete) => "0101 1/2 complete",
        ((1, 1), 2, Kind::New) => "0101 2/2 new",
        ((1, 1), 2, Kind::Again) => "0101 2/2 again",
        ((1, 3), 1, Kind::New) => "0103 1/2 new",
        ((1, 3), 2, Kind::Complete) => "0103 2/2 complete",
        _ => "another page",
    }
}

// Which document is given.
fn document(bytes: &[u8]) -> &'static str {
    match bytes {
        b"1234" => "document 1234",
        b"5678" => "document 5678",
        _ => "another document",
    }
}

/// What a reply tells, in words.
pub fn told<A: Allocator>(reply: &Reply<A>) -> &'static str {
    match reply {
        Reply::Printed { id, first, count } => printed(id.words(), *first, *count),
        Reply::Scanned(accepted) => scanned(accepted),
        Reply::Document(bytes) => document(bytes.as_slice()),
        Reply::AskRefused(AskFault::NotHeld) => "not held",
        Reply::PrintRefused(PrintFault::Save) => "save",
        Reply::PrintRefused(PrintFault::Failed) => "failed",
        Reply::Given { .. } => "given",
        Reply::GiveRefused(GiveFault::NotFree) => "not free",
        Reply::TakeRefused(TakeFault::Old) => "old",
        Reply::Exported { .. } => "exported",
        Reply::Restarted => "restarted",
        Reply::Stopped => "stopped",
        Reply::Down => "down",
        Reply::PrinterRefused(OpenFault::Memory) | Reply::DeskRefused(DeskFault::Memory) =>
            "not restarted",
        Reply::Memory
        | Reply::PrintRefused(PrintFault::Memory)
        | Reply::GiveRefused(GiveFault::Memory)
        | Reply::TakeRefused(TakeFault::Memory)
        | Reply::ScanRefused(ScanFault::Memory)
        | Reply::AskRefused(AskFault::Memory)
        | Reply::ExportRefused(ExportFault::Memory) => "memory",
        _ => "other",
    }
}

// More refusals than one event meets.
const MOST_TIMES: u32 = 4;

// Looks at an event and gives it, until neither is refused for memory. After a restart that was refused, what the event
// after it names is down.
fn given<A: Allocator + Copy>(
    world: &mut World<A>,
    event: &Event<A>,
    next: &Event<A>,
) -> &'static str {
    for _time in 0..MOST_TIMES {
        if is_honest(world, event).is_err() {
            continue;
        }
        let word = told(&world.step(event));
        if word == "not restarted" && told(&world.step(next)) != "down" {
            return "not down";
        }
        if word != "not restarted" && word != "memory" {
            return word;
        }
    }
    "memory"
}

/// The script, which is asked for again where memory was refused.
pub fn script_of<A: Allocator + Copy>(alloc: A, text: &str) -> Option<Script<A>> {
    for _time in 0..MOST_TIMES {
        if let Ok(script) = read_script(alloc, text.as_bytes()) {
            return Some(script);
        }
    }
    None
}

/// The world of a script, which is asked for again, too.
pub fn world_of<A: Allocator + Copy>(alloc: A, script: &Script<A>) -> Option<World<A>> {
    for _time in 0..MOST_TIMES {
        if let Ok(world) = World::new(alloc, &script.ranges, &script.capacities) {
            return Some(world);
        }
    }
    None
}

// Whether the replies to events are these words, where each event that is refused for memory is given again. The event
// after a restart names what was restarted.
fn answers<A: Allocator + Copy>(world: &mut World<A>, events: &[Event<A>], words: &str) -> bool {
    let mut rest = events;
    for word in words.split(',') {
        let [event, after @ ..] = rest else {
            return false;
        };
        if given(world, event, after.first().unwrap_or(event)) != word {
            return false;
        }
        rest = after;
    }
    rest.is_empty()
}

// Whether the replies to a script are these words.
fn tells<A: Allocator + Copy>(alloc: A, text: &str, words: &str) -> bool {
    let Some(script) = script_of(alloc, text) else {
        return false;
    };
    match world_of(alloc, &script) {
        Some(mut world) => answers(&mut world, &script.events, words),
        None => false,
    }
}

// Whether no world begins with ranges that share a number.
fn overlaps<A: Allocator + Copy>(alloc: A) -> bool {
    let Some(script) = script_of(alloc, OVERLAPPING) else {
        return false;
    };
    for _time in 0..MOST_TIMES {
        match World::new(alloc, &script.ranges, &script.capacities) {
            Err(WorldFault::Memory) => {}
            ended => return matches!(ended, Err(WorldFault::Overlap)),
        }
    }
    false
}

// Whether a text is refused as a script for want of memory, or for another reason, or is none, over memory that refuses
// two growths in a row; and whether it refused any.
fn read<A: Allocator + Copy>(alloc: A, growths: u64, text: &[u8]) -> (Option<ScriptFault>, bool) {
    let second = Refusing::new(alloc, growths);
    let memory = Refusing::new(&second, growths);
    (read_script(&memory, text).err(), memory.is_spent())
}

// What is no script, if only by its last line, is refused for that with however little memory.
#[test]
fn refused_growths_of_a_script_are_named(rt: HostRuntime) {
    for growths in 0..MOST_GROWTHS {
        let (fault, is_spent) = read(rt.alloc(), growths, SCRIPT);
        if !is_spent {
            assert!(rt; fault.is_none() && growths > 5, "{growths}");
            return;
        }
        assert!(rt; matches!(fault, Some(ScriptFault::Memory)), "{growths}");
        let (fault, _) = read(rt.alloc(), growths, NO_SCRIPT);
        assert!(rt; matches!(fault, Some(ScriptFault::Script)), "{growths}");
    }
    panic!(rt; "growths without end")
}

// A script, and what the replies to its events tell.
const TOLD: [(&str, &str); 4] = [
    (GATHERING, GATHERED),
    (FAILING, FAILED),
    (STOPPING_PRINTERS, STOPPED_PRINTERS),
    (STOPPING_DESKS, STOPPED_DESKS),
];

// The replies that remain are those of a world that has all the memory that it asks for.
#[test]
fn refused_growths_leave_the_replies(rt: HostRuntime) {
    for (text, words) in TOLD {
        let mut refusals = 0u64;
        for growths in 0..MOST_GROWTHS {
            let second = Refusing::new(rt.alloc(), growths);
            let memory = Refusing::new(&second, growths);
            assert!(rt; tells(&memory, text, words), "{growths}");
            if memory.is_spent() {
                refusals = growths;
            }
        }
        assert!(rt; refusals > 20 && refusals < MOST_GROWTHS - 1, "{refusals}");
    }
}

#[test]
fn refused_growths_begin_no_world(rt: HostRuntime) {
    for growths in 0..MOST_GROWTHS {
        let second = Refusing::new(rt.alloc(), growths);
        let memory = Refusing::new(&second, growths);
        assert!(rt; overlaps(&memory), "{growths}");
        if !memory.is_spent() {
            return;
        }
    }
    panic!(rt; "growths without end")
}
