//! Events at one printer.
//!
//! A printer that is down says so. Otherwise the memory that the event itself needs is asked for. A call that is
//! stopped before its save is not made. Any other is made, with the stop's plan for the next save; if it is to end
//! before its reply, the printer is down afterwards, over its store, unless the call's own memory was refused.

ghost use Rattle.std.specs.Prelude.{◌≡◌, ℕ, false, ◌+◌, ◌≤◌, ◌++◌, [], IfOk, IsTrue, length, take, vec_len, vec_capacity, if◌then◌else◌};
ghost use Rattle.dm_print_ledger.specs.Verdicts.{Prints, GivesTicket, TakesTicket};
ghost use Rattle.dm_print_ledger.specs.Ledger.{is_range};
ghost use Rattle.dm_event_history.specs.Steps.{Calls, MayLackFirst, Restarts, GiveComes, PrintComes, TakeComes, give_faults, print_faults, take_faults};
ghost use Rattle.dm_event_world.specs.Shows.{ShowsPrinter};
ghost use Rattle.dm_event_world.specs.inner.Calls.{IsMadeUnder, ends_early, most_labels, EndsEach, Left, state_after, ended_reply, RestartsAs, down_printer, give_reply, job_labels, left_labels, left_ticket, planned, print_reply, saved_of, take_reply};

use crate::actor::{LeftLabel, PrinterActor};
use crate::call::{is_stopped_before, is_stopping, lacks_memory, most_labels, next_save};
use dm_append_label::MOST_LABELS;
use dm_encodation::Scheme;
use dm_event_history::{Reply, Stop};
use dm_print_ledger::{GiveFault, Job, OpenRefused, PrintFault, Printer, Range, TakeFault, Ticket};
use dm_size::Size;
use dm_store::{MemStore, NextSave};
use std::alloc::Allocator;
use std::mem;

// ---- down and up

// The store of a printer, which is closed if it runs.
fn store_of<A: Allocator + Copy>(actor: PrinterActor<A>) -> MemStore<A>
    ensures { result ≡ saved_of actor }
{
    match actor {
        PrinterActor::Running(printer) => printer.close(),
        PrinterActor::Down(store) => store,
    }
}

// Takes a printer down, over its store. It takes no memory.
fn take_down<A: Allocator + Copy>(alloc: A, actor: &mut PrinterActor<A>)
    ensures { actor.new ≡ down_printer actor.old }
{
    let store = store_of(mem::replace(actor, PrinterActor::Down(MemStore::new(alloc))));
    *actor = PrinterActor::Down(store);
}

// Ends a call that was made and is answered so: under a stop the printer is down, unless the call lacked memory.
fn end<A: Allocator + Copy>(
    alloc: A,
    actor: &mut PrinterActor<A>,
    stop: Stop,
    reply: Reply<A>,
) -> Reply<A>
    ensures told { result ≡ ended_reply stop reply }
    ensures ended { actor.new ≡ state_after down_printer stop reply actor.old }
{
    if !is_stopping(stop) {
        return reply;
    }
    if lacks_memory(&reply) {
        return Reply::Memory;
    }
    take_down(alloc, actor);
    Reply::Stopped
}

/// Closes the printer of this number, if it runs, and opens it again. One that is refused is down.
pub(crate) fn restart<A: Allocator + Copy>(
    alloc: A,
    number: u16,
    actor: &mut PrinterActor<A>,
) -> Reply<A>
    ensures ends { RestartsAs number actor.old result actor.new }
{
    let store = store_of(mem::replace(actor, PrinterActor::Down(MemStore::new(alloc))));
    match Printer::open(alloc, store, number) {
        Ok(printer) => {
            *actor = PrinterActor::Running(printer);
            Reply::Restarted
        }
        Err(OpenRefused { fault, store }) => {
            *actor = PrinterActor::Down(store);
            Reply::PrinterRefused(fault)
        }
    }
}

// ---- prints

// Prints a document under the plan of a stop.
fn print_under<A: Allocator + Copy>(
    printer: &mut Printer<MemStore<A>, A>,
    document: &[u8],
    size: Size,
    scheme: Scheme,
    stop: Stop,
) -> Result<Job<A>, PrintFault>
    ensures { IsMadeUnder planned stop (λ old answer new. Prints old size scheme document.now answer new)
        printer.old result printer.new }
{
    printer.set_next(next_save(stop));
    let outcome = printer.print(document, size, scheme);
    printer.set_next(NextSave::Fine);
    outcome
}

// Lets this many labels of a job out, or all, if it has fewer. There is room for all.
fn let_out<A: Allocator + Copy>(labels: &mut Vec<LeftLabel<A>, A>, mut job: Job<A>, most: u8)
    requires room { vec_len labels.old + length job.labels ≤ vec_capacity labels.old }
    ensures { labels.new.items ≡ labels.old.items ++ left_labels job.id job.count 1 (take most job.labels) }
{
    let id = job.id();
    let count = job.count();
    for before in 0..most {
        let Some(grid) = job.next_label() else {
            return;
        };
        labels.push_reserved(LeftLabel {
            id,
            number: before + 1,
            count,
            grid,
        });
    }
}

// What is answered to a print, whose labels leave, as many as do under the stop.
fn tell_print<A: Allocator + Copy>(
    labels: &mut Vec<LeftLabel<A>, A>,
    outcome: Result<Job<A>, PrintFault>,
    stop: Stop,
) -> Reply<A>
    requires few { IfOk outcome (λ job. length job.labels ≤ MOST_LABELS) }
    requires room { vec_len labels.old + MOST_LABELS ≤ vec_capacity labels.old }
    ensures told { result ≡ print_reply (length labels.old.items) outcome }
    ensures left { labels.new.items ≡ labels.old.items ++ job_labels (most_labels stop) outcome }
{
    match outcome {
        Ok(job) => {
            let id = job.id();
            let first = labels.len();
            let count = job.count();
            let_out(labels, job, most_labels(stop));
            Reply::Printed { id, first, count }
        }
        Err(fault) => Reply::PrintRefused(fault),
    }
}

/// Prints a document, and lets its labels out; under a stop some of them, or none. The memory for the labels is asked
/// for before all else; where it is refused, or that of the print itself, nothing changes.
pub(crate) fn print<A: Allocator + Copy>(
    alloc: A,
    actor: &mut PrinterActor<A>,
    labels: &mut Vec<LeftLabel<A>, A>,
    document: &[u8],
    size: Size,
    scheme: Scheme,
    stop: Stop,
) -> Reply<A>
    ensures ends { EndsEach ShowsPrinter
        (MayLackFirst (Calls print_faults stop (PrintComes (length labels.old.items) document.now size scheme)))
        (λ goods. Left labels.old.items [] [] goods labels.new.items [] []) actor.old result actor.new }
{
    let PrinterActor::Running(printer) = actor else {
        return Reply::Down;
    };
    let Ok(()) = labels.reserve(MOST_LABELS) else {
        return Reply::Memory;
    };
    if is_stopped_before(stop) {
        take_down(alloc, actor);
        return Reply::Stopped;
    }
    let outcome = print_under(printer, document, size, scheme, stop);
    let reply = tell_print(labels, outcome, stop);
    end(alloc, actor, stop, reply)
}

// ---- gives

// Gives a range under the plan of a stop.
fn give_under<A: Allocator + Copy>(
    printer: &mut Printer<MemStore<A>, A>,
    receiver: u16,
    range: Range,
    stop: Stop,
) -> Result<Ticket, GiveFault>
    ensures { IsMadeUnder planned stop (λ old answer new. GivesTicket old receiver range answer new)
        printer.old result printer.new }
{
    printer.set_next(next_save(stop));
    let outcome = printer.give(receiver, range);
    printer.set_next(NextSave::Fine);
    outcome
}

// What is answered to a give, whose ticket leaves unless the give is to end before its reply.
fn tell_give<A: Allocator + Copy>(
    tickets: &mut Vec<Ticket, A>,
    outcome: Result<Ticket, GiveFault>,
    stop: Stop,
) -> Reply<A>
    requires room { vec_len tickets.old + 1 ≤ vec_capacity tickets.old }
    ensures told { result ≡ give_reply (length tickets.old.items) outcome }
    ensures left { tickets.new.items ≡ tickets.old.items ++ (if ends_early stop then [] else left_ticket outcome) }
{
    match outcome {
        Ok(ticket) => {
            let index = tickets.len();
            if !is_stopping(stop) {
                tickets.push_reserved(ticket);
            }
            Reply::Given { index, ticket }
        }
        Err(fault) => Reply::GiveRefused(fault),
    }
}

/// Gives a range of numbers to a receiver, and lets the ticket out; under a stop there is no ticket. The memory for the
/// ticket is asked for before all else; where it is refused, or that of the give itself, nothing changes.
pub(crate) fn give<A: Allocator + Copy>(
    alloc: A,
    actor: &mut PrinterActor<A>,
    tickets: &mut Vec<Ticket, A>,
    receiver: u16,
    range: Range,
    stop: Stop,
) -> Reply<A>
    ensures ends { EndsEach ShowsPrinter
        (MayLackFirst (Calls give_faults stop (GiveComes (length tickets.old.items) receiver range)))
        (λ goods. Left {A = A} [] tickets.old.items [] goods [] tickets.new.items []) actor.old result actor.new }
{
    let PrinterActor::Running(printer) = actor else {
        return Reply::Down;
    };
    let Ok(()) = tickets.reserve(1) else {
        return Reply::Memory;
    };
    if is_stopped_before(stop) {
        take_down(alloc, actor);
        return Reply::Stopped;
    }
    let outcome = give_under(printer, receiver, range, stop);
    let reply = tell_give(tickets, outcome, stop);
    end(alloc, actor, stop, reply)
}

// ---- takes

// Takes a ticket under the plan of a stop.
fn take_under<A: Allocator + Copy>(
    printer: &mut Printer<MemStore<A>, A>,
    ticket: &Ticket,
    stop: Stop,
) -> Result<(), TakeFault>
    ensures takes { IsMadeUnder planned stop (λ old answer new. TakesTicket old ticket.now answer new)
        printer.old result printer.new }
    ensures range { printer.old.is_failed ≡ false → IsTrue (is_range ticket.now.range) }
{
    printer.set_next(next_save(stop));
    let outcome = printer.take(ticket);
    printer.set_next(NextSave::Fine);
    outcome
}

// What is answered to a take.
fn tell_take<A: Allocator + Copy>(outcome: Result<(), TakeFault>) -> Reply<A>
    ensures { result ≡ take_reply outcome }
{
    match outcome {
        Ok(()) => Reply::Taken,
        Err(fault) => Reply::TakeRefused(fault),
    }
}

/// Takes a ticket, which left under this number.
pub(crate) fn take<A: Allocator + Copy>(
    alloc: A,
    actor: &mut PrinterActor<A>,
    ticket: &Ticket,
    stop: Stop,
) -> Reply<A>
    ensures ends { (number : ℕ) → EndsEach ShowsPrinter (Calls take_faults stop (TakeComes number ticket.now))
        (λ goods. Left {A = A} [] [] [] goods [] [] []) actor.old result actor.new }
{
    let PrinterActor::Running(printer) = actor else {
        return Reply::Down;
    };
    if is_stopped_before(stop) {
        take_down(alloc, actor);
        return Reply::Stopped;
    }
    let outcome = take_under(printer, ticket, stop);
    let reply = tell_take(outcome);
    end(alloc, actor, stop, reply)
}
