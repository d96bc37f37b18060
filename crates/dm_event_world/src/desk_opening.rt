//! The desks that a world begins with.

ghost use Rattle.std.specs.Prelude.{◌↔◌, All, IfOk, IsTrue};
ghost use Rattle.dm_assembly_desk.specs.Documents.{IsCapacity};
ghost use Rattle.dm_event_world.specs.inner.Desks.{AreEmpty};

use crate::actor::{DeskActor, DeskState};
use dm_assembly_desk::{Desk, MOST_CAPACITY};
use dm_store::MemSet;
use std::alloc::{AllocError, Allocator};

// Whether a desk may have this capacity.
fn is_capacity(capacity: u16) -> bool
    ensures { IsTrue result ↔ IsCapacity capacity }
{
    1 <= capacity && capacity <= MOST_CAPACITY
}

/// Whether desks may have these capacities.
pub(crate) fn are_capacities(capacities: &[u16]) -> bool
    ensures { IsTrue result ↔ All IsCapacity capacities.now }
{
    capacities.iter().all(|capacity| is_capacity(*capacity))
}

/// A desk that holds nothing for each of the capacities.
///
/// # Errors
/// Where the allocator refuses its memory.
pub(crate) fn open_desks<A: Allocator + Copy>(
    alloc: A,
    capacities: &[u16],
) -> Result<Vec<DeskActor<A>, A>, AllocError>
    requires { All IsCapacity capacities.now }
    ensures empty { IfOk result (λ desks. AreEmpty capacities.now desks.items) }
{
    let mut desks = Vec::with_capacity(alloc, capacities.len())?;
    for capacity in capacities {
        let capacity = *capacity;
        let Ok(desk) = Desk::open(alloc, MemSet::new(alloc), capacity) else {
            return Err(AllocError);
        };
        let state = DeskState::Running(desk);
        desks.push(DeskActor { capacity, state })?;
    }
    Ok(desks)
}
