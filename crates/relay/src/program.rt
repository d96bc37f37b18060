//! The program over its own streams and files.

ghost use Rattle.std.specs.Prelude.{map, string_bytes};
ghost use Rattle.relay.specs.Program.{Runs, SystemView, system_at};

use crate::closed_streams::HeldPlaces;
use crate::standard::{StandardStreams, tell};
use crate::system::System;
use relay_places::{Places, RealPlaces, show_note};
use std::alloc::Global;
use std::io::{BufReader, Error, ErrorKind, IsTerminal, Read, Write};
use std::{env, io};

// Writes text to the standard error. What isn't UTF-8 is refused.
#[derive(Drop)]
struct ErrorWriter<'a> {
    to: &'a HostRuntime,
}

impl Write for ErrorWriter<'_> {
    fn write(&mut self, buf: &[u8]) -> io::Result<usize> {
        let Ok(text) = str::from_utf8(buf) else {
            return Err(Error::from(ErrorKind::InvalidData));
        };
        eprint!(self.to; "{text}")?;
        Ok(buf.len())
    }

    fn flush(&mut self) -> io::Result<()> {
        Ok(())
    }
}

// Refuses on the standard error, and gives the exit status.
fn refuse_on_errors(rt: &HostRuntime, name: &str) -> u8 {
    tell(rt.alloc(), ErrorWriter { to: rt }, name).0
}

// The program's own words, its name first.
fn own_words(rt: &HostRuntime) -> io::Result<Vec<String>> {
    Ok(env::args(rt)?.collect(rt.alloc())?)
}

// Says why the program's own words can't be had, and gives the exit status.
fn show_word_fault(rt: &HostRuntime, error: &io::Error) -> u8 {
    let why = match error.kind() {
        ErrorKind::OutOfMemory => return refuse_on_errors(rt, "Memory"),
        ErrorKind::InvalidData => "a word of the command line is not UTF-8",
        _ => "the words of the command line can't be read",
    };
    let _ = eprint!(rt; "relay: {why}\n");
    2
}

// Says at a terminal what a line without words waits for.
fn note_waiting(rt: &HostRuntime, words: &[String]) {
    if words.len() < 2 && rt.stdin().is_terminal() {
        let _ = eprint!(rt;
            "relay: waits for a document, as `relay words` does; `relay --help` says more\n"
        );
    }
}

// Does what words say over these streams and places, and gives the exit status. It takes those of any type, since a
// body over the real ones takes long to prove.
fn run_over<I: Read + Drop, O: Write + Drop, E: Write + Drop, P: Places>(
    alloc: Global,
    standard: StandardStreams<I, O, E>,
    places: P,
    words: &[String],
) -> u8
    ensures { (new : SystemView) × Runs Global (P.known places) (map string_bytes words.now)
        (system_at standard (P.state places)) result new }
{
    let (status, _) = System { standard, places }.run_line(alloc, words);
    status
}

/// Does what the program's own words say over its own streams and the system's files, as [`System::run_line`]
/// does it, and gives the exit status.
pub fn run(rt: &HostRuntime) -> u8 {
    let Ok(_places) = HeldPlaces::hold(rt) else {
        let status = refuse_on_errors(rt, "Device");
        show_note(rt, "/", "can't be opened in the place of a closed stream");
        return status;
    };
    let words = match own_words(rt) {
        Ok(words) => words,
        Err(error) => return show_word_fault(rt, &error),
    };
    note_waiting(rt, words.as_slice());
    // These have buffers of their own, which are not to be moved from call to call.
    let Ok(mut input) = BufReader::new(rt.alloc(), rt.reader()) else {
        return refuse_on_errors(rt, "Memory");
    };
    let mut output = io::writer(rt);
    let standard = StandardStreams(&mut input, &mut output, ErrorWriter { to: rt });
    run_over(rt.alloc(), standard, RealPlaces::new(rt), words.as_slice())
}
