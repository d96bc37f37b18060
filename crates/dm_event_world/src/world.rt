//! Worlds of printers and desks.

ghost use Rattle.std.specs.Prelude.{◌≡◌, [], IfOk, IfErr, length, option_map, slice_get, ◌≤◌};
ghost use Rattle.dm_event_world.specs.Shows.{StandsFor, label_name, HasWorldFault, WorldView};
ghost use Rattle.std.specs.Coded.{codes};
ghost use Rattle.dm_store.specs.Saved.{saved_set_code};
ghost use Rattle.dm_assembly_desk.specs.Codes.{documents_code, desk_code};
ghost use Rattle.dm_event_world.specs.inner.Events.{contents_code};

use crate::actor::{DeskActor, LeftExport, LeftLabel, PrinterActor};
use crate::desk_opening::{are_capacities, open_desks};
use crate::fault::WorldFault;
use crate::printer_opening::{are_disjoint, are_ranges, create_printers};
use dm_append_label::FileId;
use dm_print_ledger::{Range, Ticket};
use std::alloc::{Allocator, Global};
use std::marker::Model;

/// Printers, each over a store of its own, desks, each over a set of its own, and the labels, tickets and exports that
/// left them.
#[derive(Drop)]
pub struct World<A: Allocator + Copy = Global> {
    pub(crate) alloc: A,
    pub(crate) printers: Vec<PrinterActor<A>, A>,
    pub(crate) desks: Vec<DeskActor<A>, A>,
    pub(crate) labels: Vec<LeftLabel<A>, A>,
    pub(crate) tickets: Vec<Ticket, A>,
    pub(crate) exports: Vec<LeftExport<A>, A>,
}

impl<A: Allocator + Copy> Model for World<A> {
    ghost Value = { WorldView A };

    ghost coded = { Prim.hlevel (codes, saved_set_code, desk_code, contents_code, documents_code) };

    ghost view = { λ w. record {
      printers = w.printers.items;
      desks = w.desks.items;
      labels = w.labels.items;
      tickets = w.tickets.items;
      exports = w.exports.items;
    } };

    ghost invariant = { λ w. length w.printers.items ≤ 65536 };
}

impl<A: Allocator + Copy> World<A> {
    /// A world of printers that were just created, number p with range p, and of desks that hold nothing, number d with
    /// capacity d. Either list may be empty.
    ///
    /// # Errors
    /// `Range`, `Overlap` or `Capacity`, the first that applies; `Memory` where none does and the allocator refuses.
    pub fn new(alloc: A, ranges: &[Range], capacities: &[u16]) -> Result<World<A>, WorldFault>
        ensures stands { IfOk result (λ world. StandsFor ranges.now capacities.now world []) }
        ensures refused { IfErr result (HasWorldFault ranges.now capacities.now) }
    {
        if !are_ranges(ranges) {
            return Err(WorldFault::Range);
        }
        if !are_disjoint(ranges) {
            return Err(WorldFault::Overlap);
        }
        if !are_capacities(capacities) {
            return Err(WorldFault::Capacity);
        }
        let Ok(printers) = create_printers(alloc, ranges) else {
            return Err(WorldFault::Memory);
        };
        let Ok(desks) = open_desks(alloc, capacities) else {
            return Err(WorldFault::Memory);
        };
        Ok(World {
            alloc,
            printers,
            desks,
            labels: Vec::new(alloc),
            tickets: Vec::new(alloc),
            exports: Vec::new(alloc),
        })
    }

    /// How many labels left.
    pub fn labels(&self) -> usize
        ensures { result ≡ length self.now.labels }
    {
        self.labels.len()
    }

    /// The ID, the number from 1, and the count of a label that left, by its number from 0.
    pub fn label(&self, number: usize) -> Option<(FileId, u8, u8)>
        ensures { result ≡ option_map label_name (slice_get self.now.labels number) }
    {
        let label = self.labels.get(number)?;
        Some((label.id, label.number, label.count))
    }

    /// How many tickets left.
    pub fn tickets(&self) -> usize
        ensures { result ≡ length self.now.tickets }
    {
        self.tickets.len()
    }

    /// A ticket that left, by its number from 0.
    pub fn ticket(&self, number: usize) -> Option<Ticket>
        ensures { result ≡ slice_get self.now.tickets number }
    {
        self.tickets.get(number).copied()
    }

    /// How many exports left.
    pub fn exports(&self) -> usize
        ensures { result ≡ length self.now.exports }
    {
        self.exports.len()
    }
}
