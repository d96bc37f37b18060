//! `relay print`: a document as labels, of a side that is asked for, or of the smallest that needs few enough labels.

ghost use Rattle.std.specs.Prelude.{◌↔◌, IsTrue, MatchOption, MatchResult};
ghost use Rattle.std.specs.Io.KnownBytes.{Appends};
ghost use Rattle.dm_size.specs.declared.size.Size.{Size};
ghost use Rattle.relay_streams.specs.Streams.{TakesPart};
ghost use Rattle.relay_printer_commands.specs.Printers.{EndsPrint, HasSide, IsChosen, LosesImages, Suits, TellsPrint, images_of, ledger_at};
ghost use Rattle.relay_shared.specs.Command.{ReadsNothing};

use crate::ledger::open_printer;
use crate::lines::put_printed;
use dm_encodation::Scheme;
use dm_pbm_io::image_of;
use dm_print_ledger::{Job, PrintFault, label_count};
use dm_size::Size;
use dm_store::Store;
use relay_command::Labels;
use relay_shared::{DOCUMENT_BYTES, Ended, Refusal, Streams, read_document, refuse};
use relay_streams::Output;
use std::alloc::Allocator;
use std::io::{Read, Write};

// Whether a side that is asked for is that of a size.
fn has_side(labels: Labels) -> bool
    ensures { IsTrue result ↔ HasSide labels }
{
    match labels {
        Labels::OfSide(side) => Size::of_side(side).is_some(),
        Labels::AtMost(_) => true,
    }
}

fn suits(labels: Labels, document: &[u8], size: Size, scheme: Scheme) -> bool
    ensures { IsTrue result ↔ Suits labels scheme document.now size }
{
    match labels {
        Labels::OfSide(side) => size.side() == side,
        Labels::AtMost(most) => match label_count(document, size, scheme) {
            Some(count) => u16::from(count) <= most,
            None => false,
        },
    }
}

// The smallest size that suits a document.
fn chosen(labels: Labels, document: &[u8], scheme: Scheme) -> Option<Size>
    ensures { MatchOption result ((size : Size) → ¬ Suits labels scheme document.now size)
        (IsChosen labels scheme document.now) }
{
    for size in Size::all() {
        if suits(labels, document, size, scheme) {
            return Some(size);
        }
    }
    None
}

fn put_images<A: Allocator + Copy, W: Write>(
    alloc: A,
    output: &mut Output<W>,
    mut job: Job<A>,
) -> Result<(), Refusal>
    ensures { MatchResult result (λ _. Appends output.old.contents output.new.contents (images_of job.labels))
        (LosesImages job.labels output.old output.new) }
{
    while let Some(grid) = job.next_label() {
        image_of(alloc, &grid, false)?.write(output)?;
    }
    Ok(())
}

// Writes what comes of a printer's answer to a document, if this many IDs are free then.
fn tell_print<A: Allocator + Copy, R: Read, W: Write, E: Write>(
    alloc: A,
    streams: &mut Streams<R, W, E>,
    answer: Result<Job<A>, PrintFault>,
    left: u32,
) -> u8
    ensures told { TellsPrint answer left streams.old result streams.new }
    ensures input { ReadsNothing streams.old streams.new }
{
    let job = match answer {
        Ok(job) => job,
        Err(fault) => return refuse(&mut streams.errors, fault.name()),
    };
    let Ok(()) = put_printed(&mut streams.errors, job.id(), job.count(), left) else {
        return 1;
    };
    match put_images(alloc, &mut streams.output, job) {
        Ok(()) => 0,
        Err(refusal) => refuse(&mut streams.errors, refusal.name()),
    }
}

/// Prints a document as labels under an ID of its own: `printed IIII n left N` goes to the standard error,
/// and then the labels go to the output as packed images; a refusal is a line on the standard error. A side that is
/// asked for is looked at first. Then at most 41,601 bytes are read, and if no side is asked for, the smallest is
/// chosen that needs few enough labels; where there is none, the document is `TooLong`. Then the printer is opened. The
/// ID is saved as used before the first byte goes out, and stays used where the labels can't be written. If
/// the line can't be written, no byte of a label goes out.
pub fn print_command<A: Allocator + Copy, S: Store, R: Read, W: Write, E: Write>(
    alloc: A,
    store: S,
    streams: &mut Streams<R, W, E>,
    number: u16,
    labels: Labels,
    scheme: Scheme,
) -> Ended<S>
    ensures part { TakesPart streams.old.input.remaining streams.new.input.remaining DOCUMENT_BYTES }
    ensures ends { EndsPrint number labels scheme (ledger_at (S.state store) streams.old) result.status
        (ledger_at (S.state result.store) streams.new) }
{
    if !has_side(labels) {
        let status = refuse(&mut streams.errors, Refusal::Side.name());
        return Ended { status, store };
    }
    let document = match read_document(alloc, &mut streams.input) {
        Ok(document) => document,
        Err(fault) => {
            let status = refuse(&mut streams.errors, fault.name());
            return Ended { status, store };
        }
    };
    let Some(size) = chosen(labels, &document, scheme) else {
        let status = refuse(&mut streams.errors, PrintFault::TooLong.name());
        return Ended { status, store };
    };
    // What is loaded decides over no label before the next ledger is saved; a refusal that rests on it costs nothing.
    let mut printer = match open_printer(alloc, store, &mut streams.errors, number) {
        Ok(printer) => printer,
        Err(ended) => return ended,
    };
    let answer = printer.print(&document, size, scheme);
    let status = tell_print(alloc, streams, answer, printer.left());
    let store = printer.close();
    Ended { status, store }
}
