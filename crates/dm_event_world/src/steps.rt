//! One event of a world.

ghost use Rattle.std.specs.Prelude.{◌≡◌, ◌↔◌, true, IfOk, OnErr};
ghost use Rattle.dm_event_history.specs.declared.event.Event.TheVariants.{Print, Scan, RestartPrinter, RestartDesk, Ask, Forget, Give, Take, Export, Import};
ghost use Rattle.dm_event_world.specs.Shows.{IsFairIn, IsLookedAt, GoesOn};
ghost use Rattle.dm_event_world.specs.inner.Events.{StepsEach};

use crate::scanned::are_within;
use crate::world::World;
use crate::{desk_act, printer_act};
use dm_append_label::FileId;
use dm_encodation::Scheme;
use dm_event_history::{Event, Reply, Stop};
use dm_print_ledger::Range;
use dm_size::Size;
use dm_symbol::still_near;
use std::alloc::{AllocError, Allocator};

impl<A: Allocator + Copy> World<A> {
    /// One event. What it names that is not there is answered `NoSuch`, and then nothing changes.
    pub fn step(&mut self, event: &Event<A>) -> Reply<A>
        ensures stands { GoesOn self.old event.now result self.new }
    {
        match event {
            Event::Print {
                printer,
                document,
                size,
                scheme,
                stop,
            } => { self.print(*printer, document.as_slice(), *size, *scheme, *stop) }
            Event::Scan {
                desk,
                label,
                flips,
                stop,
            } => self.scan(*desk, *label, flips.as_slice(), *stop),
            Event::RestartPrinter { printer } => self.restart_printer(*printer),
            Event::RestartDesk { desk } => self.restart_desk(*desk),
            Event::Ask { desk, id } => self.ask(*desk, *id),
            Event::Forget { desk, id, stop } => self.forget(*desk, *id, *stop),
            Event::Give {
                printer,
                receiver,
                range,
                stop,
            } => self.give(*printer, *receiver, *range, *stop),
            Event::Take {
                printer,
                ticket,
                stop,
            } => self.take(*printer, *ticket, *stop),
            Event::Export { desk, id } => self.export(*desk, *id),
            Event::Import { desk, export, stop } => self.import(*desk, *export, *stop),
        }
    }

    fn print(
        &mut self,
        printer: usize,
        document: &[u8],
        size: Size,
        scheme: Scheme,
        stop: Stop,
    ) -> Reply<A>
        ensures { StepsEach self.old (Print printer document.now size scheme stop) result self.new }
    {
        let Some(actor) = self.printers.get_mut(printer) else {
            return Reply::NoSuch;
        };
        printer_act::print(
            self.alloc,
            actor,
            &mut self.labels,
            document,
            size,
            scheme,
            stop,
        )
    }

    fn give(&mut self, printer: usize, receiver: u16, range: Range, stop: Stop) -> Reply<A>
        ensures { StepsEach self.old (Give printer receiver range stop) result self.new }
    {
        let Some(actor) = self.printers.get_mut(printer) else {
            return Reply::NoSuch;
        };
        printer_act::give(self.alloc, actor, &mut self.tickets, receiver, range, stop)
    }

    fn take(&mut self, printer: usize, ticket: usize, stop: Stop) -> Reply<A>
        ensures { StepsEach self.old (Take printer ticket stop) result self.new }
    {
        let Some(ticket) = self.tickets.get(ticket) else {
            return Reply::NoSuch;
        };
        let Some(actor) = self.printers.get_mut(printer) else {
            return Reply::NoSuch;
        };
        printer_act::take(self.alloc, actor, ticket, stop)
    }

    fn restart_printer(&mut self, printer: usize) -> Reply<A>
        ensures { StepsEach self.old (RestartPrinter printer) result self.new }
    {
        let Some(actor) = self.printers.get_mut(printer) else {
            return Reply::NoSuch;
        };
        printer_act::restart(self.alloc, printer as u16, actor)
    }

    fn scan(&mut self, desk: usize, label: usize, flips: &[(u16, u16)], stop: Stop) -> Reply<A>
        ensures { StepsEach self.old (Scan desk label flips.now stop) result self.new }
    {
        let Some(left) = self.labels.get(label) else {
            return Reply::NoSuch;
        };
        if !are_within(left.grid.side(), flips) {
            return Reply::NoSuch;
        }
        let Some(actor) = self.desks.get_mut(desk) else {
            return Reply::NoSuch;
        };
        desk_act::scan(self.alloc, &mut actor.state, &left.grid, flips, stop)
    }

    fn ask(&mut self, desk: usize, id: FileId) -> Reply<A>
        ensures { StepsEach self.old (Ask desk id) result self.new }
    {
        let Some(actor) = self.desks.get(desk) else {
            return Reply::NoSuch;
        };
        desk_act::ask(&actor.state, id)
    }

    fn forget(&mut self, desk: usize, id: FileId, stop: Stop) -> Reply<A>
        ensures { StepsEach self.old (Forget desk id stop) result self.new }
    {
        let Some(actor) = self.desks.get_mut(desk) else {
            return Reply::NoSuch;
        };
        desk_act::forget(self.alloc, &mut actor.state, id, stop)
    }

    fn export(&mut self, desk: usize, id: FileId) -> Reply<A>
        ensures { StepsEach self.old (Export desk id) result self.new }
    {
        let Some(actor) = self.desks.get(desk) else {
            return Reply::NoSuch;
        };
        desk_act::export(&actor.state, &mut self.exports, id)
    }

    fn import(&mut self, desk: usize, export: usize, stop: Stop) -> Reply<A>
        ensures { StepsEach self.old (Import desk export stop) result self.new }
    {
        let Some(left) = self.exports.get(export) else {
            return Reply::NoSuch;
        };
        let Some(actor) = self.desks.get_mut(desk) else {
            return Reply::NoSuch;
        };
        desk_act::import(self.alloc, &mut actor.state, left.bytes.as_slice(), stop)
    }

    fn restart_desk(&mut self, desk: usize) -> Reply<A>
        ensures { StepsEach self.old (RestartDesk desk) result self.new }
    {
        let Some(actor) = self.desks.get_mut(desk) else {
            return Reply::NoSuch;
        };
        let capacity = actor.capacity;
        desk_act::restart(self.alloc, capacity, &mut actor.state)
    }
}

/// Whether an event is honest. A scan is honest if what it names is there (the desk, the label, and each module that it
/// flips) and no block of the scanned grid has more wrong codewords than can be corrected; or if something that it
/// names is not there. Every other event is honest. Memory is asked for only to look at such a grid.
///
/// # Errors
/// Where the allocator refuses its memory.
pub fn is_honest<A: Allocator + Copy>(
    world: &World<A>,
    event: &Event<A>,
) -> Result<bool, AllocError>
    ensures honest { IfOk result (λ honest. (honest ≡ true) ↔ IsFairIn world.now event.now) }
    ensures refused { OnErr result (IsLookedAt world.now event.now) }
{
    let Event::Scan {
        desk,
        label,
        flips,
        stop: _,
    } = event
    else {
        return Ok(true);
    };
    if *desk >= world.desks.len() {
        return Ok(true);
    }
    let Some(left) = world.labels.get(*label) else {
        return Ok(true);
    };
    let flips = flips.as_slice();
    if !are_within(left.grid.side(), flips) {
        return Ok(true);
    }
    still_near(world.alloc, &left.grid, flips)
}
