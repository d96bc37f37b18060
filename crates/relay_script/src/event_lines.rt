//! The lines of a script that stand for events.

ghost use Rattle.std.specs.Prelude.{◌≡◌, ◌∷◌, [], codes, MatchOption};
ghost use Rattle.relay_script.specs.Scripts.{HasForm, SpellsEvent, SpellsEventLine};
ghost use Rattle.relay_script.specs.Words.{FitsWhereFound, IsRead, IsScriptNumber, IsNumberOf, texts};

use crate::spelled::{Spelled, words};
use crate::words::{ScriptFault, bytes, flips, id, number, range, size, stop};
use dm_event_history::Event;
use relay_command::scheme_of;
use std::alloc::Allocator;

// The number that a word writes, of something that is numbered from 0.
fn index(word: &str) -> Option<usize>
    ensures { MatchOption result (¬ IsScriptNumber word.now) (IsNumberOf word.now) }
{
    Some(usize::from(number(word)?))
}

impl<A: Allocator + Copy> Spelled<A> for Event<A> {
    ghost spells = { SpellsEventLine };

    fn read(alloc: A, line: &str) -> Result<Event<A>, ScriptFault> {
        let words = words(line).ok_or(ScriptFault::Script)?;
        event(alloc, words.as_slice())
    }
}

// The event that words stand for.
fn event<A: Allocator + Copy>(alloc: A, words: &[&str]) -> Result<Event<A>, ScriptFault>
    ensures { IsRead result (SpellsEvent (texts words.now)) }
{
    match *words {
        ["print", printer, side, scheme, document, end] => {
            print(alloc, printer, side, scheme, document, end)
        }
        ["scan", desk, label, end, modules] => scan(alloc, desk, label, end, modules),
        _ => plain_event(words).ok_or(ScriptFault::Script),
    }
}

// A print: the other words are looked at before the bytes, for which memory is needed.
#[tactic(auto, using(crate::proofs::Names::no_print))]
fn print<A: Allocator + Copy>(
    alloc: A,
    printer: &str,
    side: &str,
    scheme: &str,
    document: &str,
    end: &str,
) -> Result<Event<A>, ScriptFault>
    ensures { IsRead result (SpellsEvent
        (codes "print" ∷ printer.now ∷ side.now ∷ scheme.now ∷ document.now ∷ end.now ∷ [])) }
{
    let read = (index(printer), size(side), scheme_of(scheme), stop(end));
    let (Some(printer), Some(size), Some(scheme), Some(stop)) = read else {
        return Err(ScriptFault::Script);
    };
    Ok(Event::Print {
        printer,
        document: bytes(alloc, document)?,
        size,
        scheme,
        stop,
    })
}

// A scan: the other words are looked at before the flips, for which memory is needed.
#[tactic(auto, using(crate::proofs::Names::no_scan))]
fn scan<A: Allocator + Copy>(
    alloc: A,
    desk: &str,
    label: &str,
    end: &str,
    modules: &str,
) -> Result<Event<A>, ScriptFault>
    ensures { IsRead result (SpellsEvent (codes "scan" ∷ desk.now ∷ label.now ∷ end.now ∷ modules.now ∷ [])) }
{
    let (Some(desk), Some(label), Some(stop)) = (index(desk), index(label), stop(end)) else {
        return Err(ScriptFault::Script);
    };
    Ok(Event::Scan {
        desk,
        label,
        flips: flips(alloc, modules)?,
        stop,
    })
}

// An event whose words are read with no memory: each but a print and a scan.
fn plain_event<A: Allocator + Copy>(words: &[&str]) -> Option<Event<A>>
    requires no_print { ¬ HasForm (texts words.now) (codes "print") 6 }
    requires no_scan { ¬ HasForm (texts words.now) (codes "scan") 5 }
    ensures { FitsWhereFound result (SpellsEvent (texts words.now)) }
{
    match *words {
        ["restart", actor, number] => restart(actor, number),
        ["ask", desk, document] => ask(desk, document),
        ["forget", desk, document, end] => forget(desk, document, end),
        ["give", printer, receiver, first, last, end] => {
            give(printer, receiver, first, last, end)
        }
        ["take", printer, ticket, end] => take(printer, ticket, end),
        ["export", desk, document] => export(desk, document),
        ["import", desk, export, end] => import(desk, export, end),
        _ => None,
    }
}

// This function and those below have the names of events, and read the words after those names.
#[tactic(auto, using(crate::proofs::Names::no_restart))]
fn restart<A: Allocator + Copy>(actor: &str, number: &str) -> Option<Event<A>>
    ensures { FitsWhereFound result (SpellsEvent (codes "restart" ∷ actor.now ∷ number.now ∷ [])) }
{
    match (actor, index(number)) {
        ("printer", Some(printer)) => Some(Event::RestartPrinter { printer }),
        ("desk", Some(desk)) => Some(Event::RestartDesk { desk }),
        _ => None,
    }
}

#[tactic(auto, using(crate::proofs::Names::no_ask))]
fn ask<A: Allocator + Copy>(desk: &str, document: &str) -> Option<Event<A>>
    ensures { FitsWhereFound result (SpellsEvent (codes "ask" ∷ desk.now ∷ document.now ∷ [])) }
{
    match (index(desk), id(document)) {
        (Some(desk), Some(id)) => Some(Event::Ask { desk, id }),
        _ => None,
    }
}

#[tactic(auto, using(crate::proofs::Names::no_forget))]
fn forget<A: Allocator + Copy>(desk: &str, document: &str, end: &str) -> Option<Event<A>>
    ensures { FitsWhereFound result (SpellsEvent (codes "forget" ∷ desk.now ∷ document.now ∷ end.now ∷ [])) }
{
    match (index(desk), id(document), stop(end)) {
        (Some(desk), Some(id), Some(stop)) => Some(Event::Forget { desk, id, stop }),
        _ => None,
    }
}

#[tactic(auto, using(crate::proofs::Names::no_give))]
fn give<A: Allocator + Copy>(
    printer: &str,
    receiver: &str,
    first: &str,
    last: &str,
    end: &str,
) -> Option<Event<A>>
    ensures { FitsWhereFound result (SpellsEvent
        (codes "give" ∷ printer.now ∷ receiver.now ∷ first.now ∷ last.now ∷ end.now ∷ [])) }
{
    match (
        index(printer),
        number(receiver),
        range(first, last),
        stop(end),
    ) {
        (Some(printer), Some(receiver), Some(range), Some(stop)) => Some(Event::Give {
            printer,
            receiver,
            range,
            stop,
        }),
        _ => None,
    }
}

#[tactic(auto, using(crate::proofs::Names::no_take))]
fn take<A: Allocator + Copy>(printer: &str, ticket: &str, end: &str) -> Option<Event<A>>
    ensures { FitsWhereFound result (SpellsEvent (codes "take" ∷ printer.now ∷ ticket.now ∷ end.now ∷ [])) }
{
    match (index(printer), index(ticket), stop(end)) {
        (Some(printer), Some(ticket), Some(stop)) => Some(Event::Take {
            printer,
            ticket,
            stop,
        }),
        _ => None,
    }
}

#[tactic(auto, using(crate::proofs::Names::no_export))]
fn export<A: Allocator + Copy>(desk: &str, document: &str) -> Option<Event<A>>
    ensures { FitsWhereFound result (SpellsEvent (codes "export" ∷ desk.now ∷ document.now ∷ [])) }
{
    match (index(desk), id(document)) {
        (Some(desk), Some(id)) => Some(Event::Export { desk, id }),
        _ => None,
    }
}

#[tactic(auto, using(crate::proofs::Names::no_import))]
fn import<A: Allocator + Copy>(desk: &str, export: &str, end: &str) -> Option<Event<A>>
    ensures { FitsWhereFound result (SpellsEvent (codes "import" ∷ desk.now ∷ export.now ∷ end.now ∷ [])) }
{
    match (index(desk), index(export), stop(end)) {
        (Some(desk), Some(export), Some(stop)) => Some(Event::Import { desk, export, stop }),
        _ => None,
    }
}
