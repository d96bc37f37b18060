//! Each command over readers and writers that fail, or are interrupted, after each number of bytes.

use crate::calls::{CALLS, Call, CallEnd, Whole, alone, alone_whole, is_whole, streams_of};
use dm_store::StoreFault;
use relay_shared::Streams;
use std::alloc::Global;
use test_helpers::{Faulty, FaultyWriter};

// Whether a command whose read is interrupted ends as over its whole input.
fn reads_again(
    alloc: Global,
    call: Call,
    passes: usize,
    whole: &Whole,
) -> Result<bool, StoreFault> {
    let streams = streams_of(alloc, Faulty::interrupted(call.input(), passes));
    let ended = alone(alloc, alloc, streams, call)?;
    Ok(is_whole(&ended, ended.writer.as_slice(), whole))
}

// Whether a command whose read fails is refused, and has saved nothing.
fn is_unread(alloc: Global, call: Call, passes: usize) -> Result<bool, StoreFault> {
    let streams = streams_of(alloc, Faulty::failing(call.input(), passes));
    let ended = alone(alloc, alloc, streams, call)?;
    Ok(ended.is_refused(call, b"refused Read\n"))
}

// A read that is interrupted is made again: nothing tells of it. Of a reader that fails, before the end of a label or a
// document, the one line names the fault, and nothing is saved.
#[test]
fn readers_are_interrupted_or_fail(rt: HostRuntime) {
    for (place, call) in CALLS.iter().enumerate() {
        let whole = alone_whole(rt.alloc(), *call).expect(&rt, "it is done");
        assert!(rt; whole.status == 0 && !whole.writer.is_empty(), "{place}");
        let length = call.input().len();
        for passes in 0..=length {
            let is_right = reads_again(rt.alloc(), *call, passes, &whole).expect(&rt, "it is done")
                && (passes == length
                    || is_unread(rt.alloc(), *call, passes).expect(&rt, "it is done"));
            assert!(rt; is_right, "{place} {passes}");
        }
    }
}

// How a command ended whose output failed.
type Written = CallEnd<&'static [u8], FaultyWriter, Vec<u8>>;

const WRITE: &[u8] = b"refused Write\n";

// Whether the bytes that a failing writer took went out and no other, though it takes bytes again, what the whole
// command saves is saved, and the command has told, at last, that its output failed, where it tells of that at all.
fn has_prefix(ended: &Written, whole: &Whole, call: Call, passes: usize) -> bool {
    let told = if call.writes_no_lines() { WRITE } else { b"" };
    ended.status == 1
        && ended.files == whole.files
        && whole.writer.get(..passes) == Some(ended.writer.taken())
        && ended.errors.strip_prefix(whole.errors.as_slice()) == Some(told)
}

// Makes a command over an output.
fn written(alloc: Global, call: Call, writer: FaultyWriter) -> Result<Written, StoreFault> {
    let streams = Streams::new(call.input(), writer, Vec::new(alloc));
    alone(alloc, alloc, streams, call)
}

// Whether a command over a writer that is interrupted, and over one that fails, ends as it must.
fn is_written(alloc: Global, call: Call, passes: usize, whole: &Whole) -> Result<bool, StoreFault> {
    let again = written(alloc, call, Faulty::interrupted(Vec::new(alloc), passes))?;
    let cut = written(alloc, call, Faulty::failing_once(Vec::new(alloc), passes))?;
    Ok(is_whole(&again, again.writer.taken(), whole) && has_prefix(&cut, whole, call, passes))
}

// A write that is interrupted is made again, too.
#[test]
fn writers_are_interrupted_or_fail(rt: HostRuntime) {
    for (place, call) in CALLS.iter().enumerate() {
        let whole = alone_whole(rt.alloc(), *call).expect(&rt, "it is done");
        for passes in 0..whole.writer.len() {
            let is_right = is_written(rt.alloc(), *call, passes, &whole).expect(&rt, "it is done");
            assert!(rt; is_right, "{place} {passes}");
        }
    }
}
