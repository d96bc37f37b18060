//! `relay ledger`, a new printer; `relay give`, IDs for another; and the printer that other commands open.

ghost use Rattle.std.specs.Prelude.{◌≡◌, Ok, Err, IfErr, MatchResult, Result};
ghost use Rattle.dm_print_ledger.specs.Verdicts.{GivesTicket, PrinterOpens, give_fault_name, open_fault_name};
ghost use Rattle.dm_print_ledger.specs.Ledger.{PrinterView, TicketView};
ghost use Rattle.dm_print_ledger.specs.declared.fault.OpenFault.{OpenFault};
ghost use Rattle.relay_printer_commands.specs.Printers.{EndsGive, EndsGiveLast, EndsLedger, ledger_at, longest_note, ticket_line};
ghost use Rattle.relay_shared.specs.Command.{PutsText, TellsAnswer, TellsRefusal};

use crate::lines::{put_left, put_ticket};
use dm_print_ledger::{CreateRefused, GiveFault, OpenRefused, Printer, Range, Ticket};
use dm_store::Store;
use itoa::Buffer;
use relay_shared::{Ended, Streams, refuse, status_after};
use relay_streams::{Output, WriteFault};
use std::alloc::Allocator;
use std::io::{Read, Write};

/// The printer of a number whose ledger the store holds; or the line `refused NAME`, and how the command ends.
pub(crate) fn open_printer<A: Allocator + Copy, S: Store, W: Write>(
    alloc: A,
    store: S,
    output: &mut Output<W>,
    number: u16,
) -> Result<Printer<S, A>, Ended<S>>
    ensures opens { MatchResult result
        (λ printer. PrinterOpens (S.state store) number (Ok printer) × (output.new ≡ output.old))
        (λ ended. (fault : OpenFault) × PrinterOpens (S.state store) number (Err fault)
        × TellsRefusal (open_fault_name fault) output.old ended.status output.new) }
    ensures same { IfErr result (λ ended. S.state ended.store ≡ S.state store) }
{
    match Printer::open(alloc, store, number) {
        Ok(printer) => Ok(printer),
        Err(OpenRefused { fault, store }) => {
            let status = refuse(output, fault.name());
            Err(Ended { status, store })
        }
    }
}

/// Makes the ledger of the printer of a number, to which a range is free, on a store that holds nothing, and prints
/// `left N`, how many IDs are free, or the line `refused NAME`.
pub fn ledger_command<A: Allocator + Copy, S: Store, R: Read, W: Write, E: Write>(
    alloc: A,
    store: S,
    streams: &mut Streams<R, W, E>,
    number: u16,
    range: Range,
) -> Ended<S>
    ensures { EndsLedger number range (ledger_at (S.state store) streams.old) result.status
        (ledger_at (S.state result.store) streams.new) }
{
    match Printer::create(alloc, store, number, range) {
        Ok(printer) => {
            let status = status_after(put_left(&mut streams.output, printer.left()));
            let store = printer.close();
            Ended { status, store }
        }
        Err(CreateRefused { fault, store }) => {
            let status = refuse(&mut streams.output, fault.name());
            Ended { status, store }
        }
    }
}

// Gives a range from an open printer, and ends the command.
fn give_from<A: Allocator + Copy, S: Store, W: Write>(
    printer: Printer<S, A>,
    output: &mut Output<W>,
    to: u16,
    range: Range,
) -> Ended<S>
    ensures { (after : PrinterView) × (answer : Result TicketView GiveFault) × GivesTicket printer to range answer after
        × (S.state result.store ≡ after.saved)
        × TellsAnswer ticket_line give_fault_name answer output.old result.status output.new }
{
    let mut printer = printer;
    let status = tell_give(output, printer.give(to, range));
    let store = printer.close();
    Ended { status, store }
}

#[tactic(auto, using(relay_shared::proofs::Telling::told))]
fn tell_give<W: Write>(output: &mut Output<W>, answer: Result<Ticket, GiveFault>) -> u8
    ensures { TellsAnswer ticket_line give_fault_name answer output.old result output.new }
{
    match answer {
        Ok(ticket) => status_after(put_ticket(output, ticket)),
        Err(fault) => refuse(output, fault.name()),
    }
}

/// Gives the IDs of a range from the printer of a number to another, and prints `ticket HEX`, the ten bytes
/// of the ticket, after they were saved as gone; or the line `refused NAME`.
pub fn give_command<A: Allocator + Copy, S: Store, R: Read, W: Write, E: Write>(
    alloc: A,
    store: S,
    streams: &mut Streams<R, W, E>,
    number: u16,
    to: u16,
    range: Range,
) -> Ended<S>
    ensures { EndsGive number to range (ledger_at (S.state store) streams.old) result.status
        (ledger_at (S.state result.store) streams.new) }
{
    // As in `print`, a refusal that rests on what was loaded costs nothing.
    match open_printer(alloc, store, &mut streams.output, number) {
        Ok(printer) => give_from(printer, &mut streams.output, to, range),
        Err(ended) => ended,
    }
}

// Notes how many IDs the longest free range has.
fn note_longest<E: Write>(errors: &mut Output<E>, most: u32) -> Result<(), WriteFault>
    ensures { PutsText (longest_note most) errors.old result errors.new }
{
    let mut digits = Buffer::new();
    let most = digits.format(most).as_bytes();
    errors.put_all(&[b"relay: the longest range that is free has ", most, b"\n"])
}

/// Gives the last `count` free IDs in a row, as [`give_command`] does; or it prints `refused NotFree`, and notes how
/// many the longest free range has.
pub fn give_last_command<A: Allocator + Copy, S: Store, R: Read, W: Write, E: Write>(
    alloc: A,
    store: S,
    streams: &mut Streams<R, W, E>,
    number: u16,
    to: u16,
    count: u16,
) -> Ended<S>
    ensures { EndsGiveLast number to count (ledger_at (S.state store) streams.old) result.status
        (ledger_at (S.state result.store) streams.new) }
{
    let printer = match open_printer(alloc, store, &mut streams.output, number) {
        Ok(printer) => printer,
        Err(ended) => return ended,
    };
    match printer.last_free(count) {
        Ok(range) => give_from(printer, &mut streams.output, to, range),
        Err(most) => {
            let status = refuse(&mut streams.output, GiveFault::NotFree.name());
            let _ = note_longest(&mut streams.errors, most);
            let store = printer.close();
            Ended { status, store }
        }
    }
}
