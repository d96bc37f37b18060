//! `relay take`, IDs from another printer, and `relay ticket`, what a ticket says. The text of a ticket has
//! two forms: twenty hexadecimal digits, those of its ten bytes; or the check form, 24 digits in groups of four, joined
//! by hyphens, those of the ten bytes and of two error correction codewords.

ghost use Rattle.std.specs.Prelude.{◌≡◌, ◌+◌, ◌++◌, ◌*◌, ◌<◌, ◌↔◌, ◌≢◌, ◌⊎◌, ℕ, List, length, slice_index, Err, IfErr, IsOk, IsTrue, MatchOption};
ghost use Rattle.std.specs.List.{All};
ghost use Rattle.dm_print_ledger.specs.Ledger.{AreOfTicket, ticket_bytes};
ghost use Rattle.relay_printer_commands.specs.Printers.{taken_line, HasTicket, IsBareText, IsCheckText, IsChecked, IsTextOf, EndsTicket, check_line, digits_in_groups, from_line, ledger_at, EndsTake, IsNotToldOld};
ghost use Rattle.relay_shared.specs.Command.{PutsText, TellsAnswer};
ghost use Rattle.dm_print_ledger.specs.Verdicts.{open_fault_of, take_fault_name};
ghost use Rattle.dm_store.specs.{Saved.MayNotSettle, declared.store.StoreFault.StoreFault};

use crate::ledger::open_printer;
use crate::lines::{put_check, put_from, put_taken};
use dm_check_blocks::checks_of;
use dm_print_ledger::{OpenFault, TakeFault, Ticket};
use dm_store::Store;
use hex::FromHex;
use relay_shared::{Ended, Refusal, Streams, refuse, status_after};
use relay_streams::{Output, WriteFault};
use std::alloc::Allocator;
use std::io::{Read, Write};

// What a byte holds is a codeword.
fn bytes_are_words(bytes: &[u8])
    ensures { All (λ word. word < 256) bytes.now }
{}

// Ten bytes, and two error correction codewords of them.
fn checked(bytes: [u8; 10]) -> [u8; 12]
    ensures checked { IsChecked bytes result }
    ensures only { (other : List ℕ) → IsChecked bytes other → other ≡ result }
{
    let mut whole = [0u8; 12];
    let (message, checks) = whole.split_at_mut(10);
    message.copy_from_slice(&bytes);
    checks_of(&bytes, checks);
    bytes_are_words(&whole);
    whole
}

// Whether a text is as long as six groups of four digits, and a hyphen stands after each of them but the last.
fn has_hyphens(text: &[u8]) -> bool
    ensures { IsTrue result
        ↔ ((length text.now ≡ 29) × ((j : ℕ) → j < 5 → slice_index text.now (5 * j + 4) ≡ 45)) }
{
    text.len() == 29 && (0..5usize).all(|group| text[5 * group + 4] == b'-')
}

// What stands between the hyphens.
fn digits_in_groups(text: &[u8]) -> [u8; 24]
    requires { length text.now ≡ 29 }
    ensures { result ≡ digits_in_groups text.now }
{
    let mut digits = [0u8; 24];
    for k in 0..24 {
        digits[k] = text[k + k / 4];
    }
    digits
}

fn of_check_form(text: &[u8]) -> Option<Ticket>
    ensures { MatchOption result ((bytes : List ℕ) → AreOfTicket bytes → ¬ IsCheckText text.now bytes)
        (λ ticket. AreOfTicket (ticket_bytes ticket) × IsCheckText text.now (ticket_bytes ticket)) }
{
    if !has_hyphens(text) {
        return None;
    }
    let whole = <[u8; 12]>::from_hex(digits_in_groups(text)).ok()?;
    let ticket = Ticket::of_bytes(&whole[..10])?;
    if checked(ticket.bytes()) == whole {
        Some(ticket)
    } else {
        None
    }
}

fn of_digits(text: &[u8]) -> Option<Ticket>
    ensures { MatchOption result ((bytes : List ℕ) → AreOfTicket bytes → ¬ IsBareText text.now bytes)
        (λ ticket. AreOfTicket (ticket_bytes ticket) × IsBareText text.now (ticket_bytes ticket)) }
{
    Ticket::of_bytes(&<[u8; 10]>::from_hex(text).ok()?)
}

/// The ticket of a text, in either form.
pub(crate) fn ticket_on(text: &[u8]) -> Option<Ticket>
    ensures { MatchOption result (¬ HasTicket text.now) (λ ticket. HasTicket text.now × IsTextOf text.now ticket) }
{
    match of_digits(text) {
        Some(ticket) => Some(ticket),
        None => of_check_form(text),
    }
}

fn ticket_of(text: &str) -> Option<Ticket>
    ensures { MatchOption result (¬ HasTicket text.now) (λ ticket. HasTicket text.now × IsTextOf text.now ticket) }
{
    ticket_on(text.as_bytes())
}

fn put_lines<W: Write>(
    output: &mut Output<W>,
    ticket: Ticket,
    whole: [u8; 12],
) -> Result<(), WriteFault>
    ensures { PutsText (from_line ticket ++ check_line whole) output.old result output.new }
{
    put_from(output, ticket)?;
    put_check(output, whole)
}

/// Prints what the ticket of a text says, in either form of text: the line `from P to Q serial S first A last B`, and
/// the line `check`, the check form of its text. Or it prints the line `refused Ticket`.
pub fn ticket_command<R: Read, W: Write, E: Write>(streams: &mut Streams<R, W, E>, text: &str) -> u8
    ensures { EndsTicket text.now streams.old result streams.new }
{
    let Some(ticket) = ticket_of(text) else {
        return refuse(&mut streams.output, Refusal::Ticket.name());
    };
    let whole = checked(ticket.bytes());
    status_after(put_lines(&mut streams.output, ticket, whole))
}

// Writes the line of a printer's answer to a ticket that it was to take, if this many IDs are free then.
#[tactic(auto, using(relay_shared::proofs::Telling::told))]
fn tell_take<W: Write>(output: &mut Output<W>, answer: Result<(), TakeFault>, left: u32) -> u8
    ensures { TellsAnswer (λ _. taken_line left) take_fault_name answer output.old result output.new }
{
    match answer {
        Ok(()) => status_after(put_taken(output, left)),
        Err(fault) => refuse(output, fault.name()),
    }
}

// Settles what was loaded, if it is told that the ticket was taken before: then the ticket is thrown away.
fn settle_old<S: Store>(store: &mut S, answer: Result<(), TakeFault>) -> Result<(), OpenFault>
    ensures same { S.state store.new ≡ S.state store.old }
    ensures fault { IfErr result (λ fault. (answer ≡ Err TakeFault.Old) × (why : StoreFault)
        × (fault ≡ open_fault_of why) × MayNotSettle (S.state store.old) why) }
    ensures settled { IsOk result → S.is_settled store.new ⊎ (answer ≢ Err TakeFault.Old) }
{
    if let Err(TakeFault::Old) = answer {
        store.settle()?;
    }
    Ok(())
}

/// Takes the ticket of a text, in either form, and prints `taken left N`, how many IDs are free then, or
/// the line `refused NAME`. The text is looked at before the store.
pub fn take_command<A: Allocator + Copy, S: Store, R: Read, W: Write, E: Write>(
    alloc: A,
    store: S,
    streams: &mut Streams<R, W, E>,
    number: u16,
    text: &str,
) -> Ended<S>
    ensures ends { EndsTake number text.now (ledger_at (S.state store) streams.old) result.status
        (ledger_at (S.state result.store) streams.new) }
    // No stop takes back that the ticket was taken before.
    ensures settled { S.is_settled result.store ⊎ IsNotToldOld streams.old result.status streams.new }
{
    let Some(ticket) = ticket_of(text) else {
        let status = refuse(&mut streams.output, Refusal::Ticket.name());
        return Ended { status, store };
    };
    let mut printer = match open_printer(alloc, store, &mut streams.output, number) {
        Ok(printer) => printer,
        Err(ended) => return ended,
    };
    let answer = printer.take(&ticket);
    let left = printer.left();
    let mut store = printer.close();
    match settle_old(&mut store, answer) {
        Ok(()) => {}
        Err(fault) => {
            let status = refuse(&mut streams.output, fault.name());
            return Ended { status, store };
        }
    }
    let status = tell_take(&mut streams.output, answer, left);
    Ended { status, store }
}
