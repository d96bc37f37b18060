//! Inputs and outputs over readers and writers that fail in mid-stream, and over one that is interrupted.

use relay_streams::{Input, InputFault, Output, ReadFault};
use std::alloc::Global;
use test_helpers::Faulty;

const TEXT: &[u8] = b"relay";

#[test]
fn a_failed_read_is_remembered(rt: HostRuntime) {
    for passes in 0..TEXT.len() {
        let mut input = Input::new(Faulty::failing(TEXT, passes));
        for (at, byte) in TEXT.iter().enumerate() {
            let failed = at >= passes;
            let wanted = if failed {
                Err(ReadFault::Read)
            } else {
                Ok(Some(*byte))
            };
            let is_read = input.next_byte() == wanted;
            assert!(rt;
                is_read && input.has_failed() == failed,
                "byte {at} of {passes}"
            );
        }
    }
}

// Whether the first bytes are given of a reader that fails, where they come before it does.
fn is_first(alloc: Global, passes: usize, limit: usize) -> bool {
    let mut input = Input::new(Faulty::failing(TEXT, passes));
    let is_right = match input.read_up_to(alloc, limit) {
        Ok(first) => limit <= passes && Some(first.as_slice()) == TEXT.get(..limit),
        Err(fault) => limit > passes && fault == InputFault::Read,
    };
    is_right && input.has_failed() == (limit > passes)
}

// An interrupted read is made again.
#[test]
fn the_first_bytes_are_read(rt: HostRuntime) {
    for passes in 0..TEXT.len() {
        let mut interrupted = Input::new(Faulty::interrupted(TEXT, passes));
        let whole = interrupted
            .read_up_to(rt.alloc(), 100)
            .expect(&rt, "it is done");
        assert!(rt; whole.as_slice() == TEXT && !interrupted.has_failed());
        for limit in 0..8 {
            assert!(rt; is_first(rt.alloc(), passes, limit), "{limit} of {passes}");
        }
    }
}

#[test]
fn a_buffer_is_filled(rt: HostRuntime) {
    let mut buffer = [0u8; 2];
    let mut input = Input::new(TEXT);
    assert!(rt; input.fill(&mut buffer) == Ok(2) && buffer == *b"re");
    assert!(rt; input.fill(&mut buffer) == Ok(2) && buffer == *b"la");
    assert!(rt; input.fill(&mut buffer) == Ok(1) && input.fill(&mut buffer) == Ok(0));
    let mut failing = Input::new(Faulty::failing(TEXT, 1));
    assert!(rt; failing.fill(&mut buffer) == Err(ReadFault::Read) && failing.has_failed());
}

// Whether an output whose writer fails once remembers that. The writer takes bytes again: none comes.
fn is_remembered(alloc: Global, passes: usize) -> bool {
    let failed = passes < 13;
    let mut output = Output::new(Faulty::failing_once(Vec::new(alloc), passes));
    let is_told = output.put_refusal("Read").is_err() == failed && output.has_failed() == failed;
    let is_kept = output.put(b"").is_err() == failed && (!failed || output.put(TEXT).is_err());
    let written = Some(output.writer().taken());
    is_told && is_kept && written == b"refused Read\n".get(..passes.min(13))
}

#[test]
fn a_failed_write_is_remembered(rt: HostRuntime) {
    for passes in 0..14 {
        assert!(rt; is_remembered(rt.alloc(), passes), "{passes}");
    }
}
