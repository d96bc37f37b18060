//! Lines over places in memory: one after another, and one whose output takes nothing.

use dm_store::{MemSet, MemStore};
use relay::{MemPlace, MemPlaces, Places, StandardStreams, System};
use std::alloc::{AllocError, Global};
use std::io::{Cursor, Result as IoResult, Write};

// Each line reads what the one before has written, and writes this, if it is known. The print's document is what the
// ledger's line has written.
#[rattlefmt::skip] // a line a line
const LINES: [(&str, &[u8]); 8] = [
    ("relay ledger --file other --number 7 --first 10 --last 19", b"left 10\n"),
    ("relay ledger --file ledger --first 0 --last 9", b"left 10\n"),
    ("relay print --file ledger --side 22", b""),
    ("relay scan --file desk", b"0101 1/2 new\n0101 2/2 complete\n"),
    ("relay deliver --file desk --id 0101", b"left 10\n"),
    ("relay deliver --file desk --all documents", b""),
    ("relay export --file desk --all pages", b""),
    ("relay left --file other", b"printer 7\nleft 10\nfree 10 19 010b 0114\ngiven 0\n"),
];

// Does a line over an input: its status, what it wrote, and the places after it. Over any places, since what is over
// those in memory is proved in more time.
fn done<P: Places>(
    alloc: Global,
    line: &str,
    input: Vec<u8>,
    places: P,
) -> Result<(u8, Vec<u8>, P), AllocError> {
    let words: Vec<&str> = line.split(' ').collect(alloc)?;
    let standard = StandardStreams(Cursor::new(input), Vec::new(alloc), Vec::new(alloc));
    let (status, system) = System { standard, places }.run_line(alloc, words.as_slice());
    let System { standard, places } = system;
    let StandardStreams(_, output, _) = standard;
    Ok((status, output, places))
}

// Places in memory at which nothing is.
#[rattlefmt::skip] // a pattern a line
fn no_places(alloc: Global) -> MemPlaces<'static> {
    let opened = MemPlace { path: String::new(alloc), files: (MemStore::new(alloc), MemSet::new(alloc)) };
    MemPlaces { alloc, opened, kept: Vec::new(alloc), inputs: &[] }
}

#[test]
fn a_document_goes_from_a_ledger_to_a_desk(rt: HostRuntime) {
    let alloc = rt.alloc();
    let mut places = no_places(alloc);
    let mut written = Vec::new(alloc);
    for (line, wanted) in LINES {
        let (status, output, after) = done(alloc, line, written, places).expect(&rt, "it is done");
        assert!(rt;
            status == 0 && (wanted.is_empty() || output.as_slice() == wanted),
            "{line}"
        );
        (places, written) = (after, output);
    }
}

// An output that takes no byte, and does not say why.
#[derive(Drop)]
struct Full;

impl Write for Full {
    fn write(&mut self, _buf: &[u8]) -> IoResult<usize> {
        Ok(0)
    }

    fn flush(&mut self) -> IoResult<()> {
        Ok(())
    }
}

// Does a line over such an output: its status, and what the standard error got.
fn lost<P: Places>(alloc: Global, words: &[&str], places: P) -> (u8, Vec<u8>) {
    let standard = StandardStreams(Cursor::new(Vec::new(alloc)), Full, Vec::new(alloc));
    let (status, system) = System { standard, places }.run_line(alloc, words);
    let System { standard, .. } = system;
    let StandardStreams(_, _, errors) = standard;
    (status, errors)
}

#[test]
fn an_output_that_takes_nothing_is_not_asked_again(rt: HostRuntime) {
    let alloc = rt.alloc();
    let (status, errors) = lost(alloc, &["relay", "plan"], no_places(alloc));
    assert!(rt; status == 1 && errors.as_slice() == b"refused Write\n".as_slice());
}
