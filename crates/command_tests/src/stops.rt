//! Each command that saves, stopped at each call of the disk, over the worst disk that the contract of disks allows.
//! Whatever the stop leaves, the next commands find all that was answered, and at most the one save more that was
//! under way.

use crate::calls::{BOTH, Call, LABEL, LABELS, OTHER, OTHER_LABEL, Whole, made, made_until};
use crate::left_files::{Files, LeftFiles, files_on};
use crate::machine::MOST_CALLS;
use dm_store::{Kept, StoreFault};
use std::alloc::Global;
use std::process::Abort;
use test_helpers::MemDisk;

// More calls of the disk than the move of an old file makes.
const MOST_CALLS_OF_A_MOVE: u32 = 24;

// More calls of the disk than the move of an old file makes, and a forget after it.
const MOST_CALLS_OF_A_FORGET: u32 = 32;

// A command that looks at what was saved, and the line that it writes after none of the saves, after the first, and so
// on.
type Look = (Call, &'static [&'static [u8]]);

// The commands that are done before, the one that is stopped, and those that look at what is left, one after another.
type Case = (&'static [Call], Call, &'static [Look]);

const PRINTS: &[&[u8]] = &[b"printed 0102 2 left 8\n", b"printed 0103 2 left 7\n"];

const PRINTS_AROUND_GIVE: &[&[u8]] = &[b"printed 0102 2 left 8\n", b"printed 0102 2 left 3\n"];

const GIVES: &[&[u8]] = &[b"ticket 00000000000100050009\n", b"refused NotFree\n"];

// What an import of both pages answers where neither is held, or the second alone, the first alone, or both.
const ADDED_BOTH: &[u8] = b"0101 2 added 0003 complete\n";

const ADDED_FIRST: &[u8] = b"0101 2 added 0001 complete\n";

const ADDED_SECOND: &[u8] = b"0101 2 added 0002 complete\n";

const ADDED_NONE: &[u8] = b"0101 2 added 0000 again\n";

const OTHER_ADDED: &[u8] = b"0103 2 added 0001 new\n";

const OTHER_ADDED_NONE: &[u8] = b"0103 2 added 0000 again\n";

const OTHER_IS_HELD: Look = (Call::Import(OTHER), &[OTHER_ADDED_NONE, OTHER_ADDED_NONE]);

#[rattlefmt::skip]
const CASES: &[Case] = &[
    (&[], Call::Ledger, &[(Call::Ledger, &[b"left 10\n", b"refused Exists\n"])]),
    (&[Call::Ledger, Call::Print], Call::Print, &[(Call::Print, PRINTS)]),
    (&[Call::Ledger, Call::Print], Call::PrintAuto, &[(Call::Print, PRINTS)]),
    (&[Call::Ledger, Call::Print], Call::Give, &[(Call::Print, PRINTS_AROUND_GIVE), (Call::Give, GIVES)]),
    (&[Call::Ledger, Call::Print], Call::GiveLast, &[(Call::Print, PRINTS_AROUND_GIVE), (Call::Give, GIVES)]),
    (&[Call::Ledger], Call::Take, &[(Call::Take, &[b"taken left 12\n", b"refused Old\n"])]),
    (&[], Call::Scan(LABELS), &[(Call::Import(BOTH), &[ADDED_BOTH, ADDED_SECOND, ADDED_NONE])]),
    (&[Call::Scan(LABEL)], Call::Import(BOTH), &[(Call::Import(BOTH), &[ADDED_SECOND, ADDED_NONE])]),
    (&[], Call::ImportFiles, &[
        (Call::Import(BOTH), &[ADDED_BOTH, ADDED_BOTH, ADDED_NONE]),
        (Call::Import(OTHER), &[OTHER_ADDED, OTHER_ADDED_NONE, OTHER_ADDED_NONE]),
    ]),
    (&[Call::Import(BOTH)], Call::Forget("0101"), &[(Call::Import(BOTH), &[ADDED_NONE, ADDED_BOTH])]),
    // The documents of the joint file are moved first: the second page of the one, and a page of another.
    (&[Call::Joint], Call::Import(BOTH), &[(Call::Import(BOTH), &[ADDED_FIRST, ADDED_NONE]), OTHER_IS_HELD]),
    (&[Call::Joint], Call::Forget("0101"), &[(Call::Import(BOTH), &[ADDED_FIRST, ADDED_BOTH]), OTHER_IS_HELD]),
];

// How many saves a command answers: a scan is of two labels, an import of files of two files.
fn saves_of(call: Call) -> u8 {
    if matches!(call, Call::Scan(_) | Call::ImportFiles) {
        2
    } else {
        1
    }
}

// How many saves it has answered: those of its lines that are no refusal.
fn answered(lines: &[u8]) -> u8 {
    let mut count = 0u8;
    for line in str::from_utf8(lines).unwrap_or("").split('\n') {
        if !line.is_empty() && !line.starts_with("refused ") {
            count = count.saturating_add(1);
        }
    }
    count
}

// Whether a command was done, or else has named a refusal last, and has told of no more than it answered.
fn ends_well(ended: &Whole, call: Call) -> bool {
    let (lines, _) = ended.told(call);
    let count = answered(lines);
    if ended.status == 0 {
        return count == saves_of(call);
    }
    count <= saves_of(call)
        && (lines.ends_with(b"refused Save\n") || lines.ends_with(b"refused Device\n"))
        && (count > 0 || ended.tells_no_more(call))
}

// A disk on which the commands are done; a fault if one of them is refused.
fn disk_after(alloc: Global, calls: &[Call]) -> Result<MemDisk, StoreFault> {
    let mut disk = MemDisk::new(alloc);
    for call in calls {
        let ended = made(alloc, disk, *call)?;
        if ended.status != 0 {
            return Err(StoreFault::Device);
        }
        disk = ended.disk;
    }
    Ok(disk)
}

// Whether a command has written these lines.
fn has_told(ended: &Whole, call: Call, lines: &[u8]) -> bool {
    ended.told(call).0 == lines
}

// After how many of the saves a disk stands, as each look says: bit i for i of them.
fn saves_on(alloc: Global, mut disk: MemDisk, looks: &[Look]) -> Result<u8, StoreFault> {
    let mut saves = u8::MAX;
    for (call, written) in looks {
        let ended = made(alloc, disk, *call)?;
        let mut here = 0u8;
        for (count, lines) in written.iter().enumerate() {
            if has_told(&ended, *call, lines) {
                here |= 1u8 << (count % 8);
            }
        }
        saves &= here;
        disk = ended.disk;
    }
    Ok(saves)
}

// After how many of the saves, as bits, a disk stands in some way that a stop may leave it, if each way is after a
// number of saves that is allowed; and else none.
fn saves_left(
    alloc: Global,
    left: &LeftFiles,
    looks: &[Look],
    allowed: u8,
) -> Result<u8, StoreFault> {
    let mut seen = 0u8;
    for number in 0..left.count() {
        let saves = allowed & saves_on(alloc, left.way(alloc, number)?, looks)?;
        if saves == 0 {
            return Ok(0);
        }
        seen |= saves;
    }
    Ok(seen)
}

// A stop at a call: whether the command was done before it, and after how many of the saves what is left may stand, as
// bits; none if the command does not end as it must, or what was answered is not there.
fn stop(
    alloc: Global,
    (before, call, looks): Case,
    passes: u32,
    kept: Kept,
) -> Result<(bool, u8), StoreFault> {
    let ended = made_until(alloc, disk_after(alloc, before)?, passes, kept, call)?;
    let is_done = ended.status == 0;
    if !ends_well(&ended, call) {
        return Ok((is_done, 0));
    }
    let allowed = (if is_done { 1u8 } else { 3 }) << (answered(ended.told(call).0) % 8);
    let left = LeftFiles::new(alloc, &ended.disk, &ended.old, &ended.files)?;
    Ok((is_done, saves_left(alloc, &left, looks, allowed)?))
}

// Stops the command of the case at a place at each call, until it is done; and what is left stands after each number of
// saves somewhere.
fn stops(rt: &impl Abort, alloc: Global, (place, case): (usize, Case), kept: Kept) {
    let mut seen = 0u8;
    for passes in 0..MOST_CALLS {
        let (is_done, saves) = stop(alloc, case, passes, kept).expect(rt, "it is done");
        assert!(rt; saves != 0, "{place} {passes} {kept:?}");
        seen |= saves;
        if is_done {
            let all = u8::MAX >> (7 - saves_of(case.1) % 8);
            assert!(rt; seen == all, "{place} {kept:?}");
            return;
        }
    }
    panic!(rt; "calls without end")
}

#[test]
fn a_command_keeps_what_it_answered(rt: HostRuntime) {
    for (place, case) in CASES.iter().enumerate() {
        stops(&rt, rt.alloc(), (place, *case), Kept::Old);
        stops(&rt, rt.alloc(), (place, *case), Kept::New);
    }
}

// The move of an old file, stopped twice. A file that the first stop left is there for a reader, but a second stop may
// take it back until the set is settled; both documents of the old file are found whatever is left. The
// command moves them first, and adds nothing to them.
fn keeps_both(alloc: Global, first: u32, second: u32) -> Result<bool, StoreFault> {
    let mut disk = disk_after(alloc, &[Call::Joint])?;
    let old = files_on(alloc, &mut disk)?;
    for passes in [first, second] {
        disk = made_until(alloc, disk, passes, Kept::Old, Call::Import(OTHER))?.disk;
    }
    let new = files_on(alloc, &mut disk)?;
    let left = LeftFiles::new(alloc, &disk, &old, &new)?;
    let looks: &[Look] = &[(Call::Import(BOTH), &[ADDED_FIRST]), OTHER_IS_HELD];
    Ok(saves_left(alloc, &left, looks, 1)? == 1)
}

#[test]
fn a_move_stopped_twice_keeps_both_documents(rt: HostRuntime) {
    for first in 0..MOST_CALLS_OF_A_MOVE {
        for second in 0..MOST_CALLS_OF_A_MOVE {
            let keeps = keeps_both(rt.alloc(), first, second).expect(&rt, "it is done");
            assert!(rt; keeps, "{first} {second}");
        }
    }
}

// The calls that are done before, one that is stopped, and one that tells of what it found: done, or by this refusal.
// Then what a look writes, whatever a stop has left.
type Telling = (
    &'static [Call],
    Call,
    (Call, &'static [u8]),
    Call,
    &'static [u8],
);

const DONE: &[u8] = b"";

#[rattlefmt::skip]
const TOLD: &[Telling] = &[
    (&[], Call::Scan(LABEL), (Call::Scan(LABEL), DONE), Call::Import(BOTH), ADDED_SECOND),
    (&[], Call::Scan(LABEL), (Call::Scan(OTHER_LABEL), b"refused Conflict\n"), Call::Import(BOTH), ADDED_SECOND),
    (&[], Call::Import(BOTH), (Call::Import(BOTH), DONE), Call::Import(BOTH), ADDED_NONE),
    (&[], Call::Import(BOTH), (Call::Deliver, DONE), Call::Import(BOTH), ADDED_NONE),
    (&[], Call::Import(BOTH), (Call::Export("0101"), DONE), Call::Import(BOTH), ADDED_NONE),
    (&[], Call::Import(BOTH), (Call::Copy, DONE), Call::Import(BOTH), ADDED_NONE),
    (&[], Call::Import(BOTH), (Call::Held(None), IS_HELD), Call::Import(BOTH), ADDED_NONE),
    (&[], Call::Import(BOTH), (Call::Held(Some("0101")), IS_HELD), Call::Import(BOTH), ADDED_NONE),
    // What is told as gone stays gone.
    (&[Call::Import(BOTH)], Call::Forget("0101"), (Call::Forget("0101"), NOT_HELD), Call::Import(BOTH), ADDED_BOTH),
    (&[Call::Import(BOTH)], Call::Forget("0101"), (Call::Deliver, NOT_HELD), Call::Import(BOTH), ADDED_BOTH),
    (&[Call::Import(BOTH)], Call::Forget("0101"), (Call::Export("0101"), NOT_HELD), Call::Import(BOTH), ADDED_BOTH),
    (&[Call::Import(BOTH)], Call::Forget("0101"), (Call::Copy, NOT_HELD), Call::Import(BOTH), ADDED_BOTH),
    (&[Call::Import(BOTH)], Call::Forget("0101"), (Call::Held(Some("0101")), NOT_HELD), Call::Import(BOTH), ADDED_BOTH),
    // The documents of the joint file are moved first, and what is forgotten then stays so.
    (&[Call::Joint], Call::Import(OTHER), (Call::Forget("0101"), DONE), Call::Import(BOTH), ADDED_BOTH),
    // A ticket that is told as taken before was taken.
    (&[Call::Ledger], Call::Take, (Call::Take, b"refused Old\n"), Call::Take, b"refused Old\n"),
];

const IS_HELD: &[u8] = b"0101 2 complete\n";

const NOT_HELD: &[u8] = b"refused NotHeld\n";

// What came of a call that was stopped and one that told.
#[derive(Drop)]
struct Told {
    // Whether what was told stays so, whatever a stop leaves. Where something else was told, nothing is asked.
    keeps: bool,
    was_stopped: bool,
    teller_was_stopped: bool,
}

// Whether a look writes these lines in each way that a stop may leave the disk of a call.
fn is_seen(
    alloc: Global,
    old: &Files,
    ended: &Whole,
    (look, wanted): (Call, &[u8]),
) -> Result<bool, StoreFault> {
    let left = LeftFiles::new(alloc, &ended.disk, old, &ended.files)?;
    let mut keeps = true;
    for number in 0..left.count() {
        let looked = made(alloc, left.way(alloc, number)?, look)?;
        keeps &= has_told(&looked, look, wanted);
    }
    Ok(keeps)
}

// The first call may be stopped before its file is settled, and so may the one that tells.
fn told_after(
    alloc: Global,
    (before, stopped, (call, told), look, wanted): Telling,
    (first, second): (u32, u32),
    kept: Kept,
) -> Result<Told, StoreFault> {
    let first = made_until(alloc, disk_after(alloc, before)?, first, kept, stopped)?;
    let ended = made_until(alloc, first.disk, second, kept, call)?;
    let tells = if told.is_empty() {
        ended.status == 0
    } else {
        has_told(&ended, call, told)
    };
    Ok(Told {
        keeps: !tells || is_seen(alloc, &first.old, &ended, (look, wanted))?,
        was_stopped: first.has_stopped,
        teller_was_stopped: ended.has_stopped,
    })
}

// Stops the call that tells at each call of its disk, until it is done, after the first call was stopped. Says whether
// that was stopped.
fn tells_what_stays(
    rt: &impl Abort,
    alloc: Global,
    (place, told): (usize, Telling),
    first: u32,
    kept: Kept,
) -> bool {
    for second in 0..=MOST_CALLS_OF_A_FORGET {
        let seen = told_after(alloc, told, (first, second), kept).expect(rt, "it is done");
        assert!(rt; seen.keeps, "{place} {first} {second} {kept:?}");
        if !seen.teller_was_stopped {
            return seen.was_stopped;
        }
    }
    panic!(rt; "calls without end")
}

#[test]
fn what_is_told_stays_so(rt: HostRuntime) {
    for (place, told) in TOLD.iter().enumerate() {
        for kept in [Kept::Old, Kept::New] {
            for first in 0..MOST_CALLS_OF_A_FORGET {
                if !tells_what_stays(&rt, rt.alloc(), (place, *told), first, kept) {
                    break;
                }
            }
        }
    }
}
