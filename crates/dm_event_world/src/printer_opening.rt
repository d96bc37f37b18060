//! The printers that a world begins with.

ghost use Rattle.std.specs.Prelude.{◌↔◌, ◌≤◌, IsTrue, IfOk, All, length};
ghost use Rattle.dm_print_ledger.specs.Ledger.{is_range};
ghost use Rattle.dm_event_history.specs.Headline.{IsApart, AreDisjoint};
ghost use Rattle.dm_event_world.specs.Shows.{AreIdRanges};
ghost use Rattle.dm_event_world.specs.inner.Calls.{AreFresh};

use crate::actor::PrinterActor;
use dm_print_ledger::{CreateFault, CreateRefused, Printer, Range, is_range};
use dm_store::MemStore;
use std::alloc::{AllocError, Allocator};

/// Whether each of them has numbers, all of them of IDs.
pub(crate) fn are_ranges(ranges: &[Range]) -> bool
    ensures { IsTrue result ↔ AreIdRanges ranges.now }
{
    ranges.iter().all(|range| is_range(*range))
}

// Whether one range ends before the other begins.
fn is_apart(range: Range, other: Range) -> bool
    ensures { IsTrue result ↔ IsApart range other }
{
    range.last < other.first || other.last < range.first
}

// Whether a range is apart from each of the others.
fn is_apart_from_all(range: Range, others: &[Range]) -> bool
    ensures { IsTrue result ↔ All (IsApart range) others.now }
{
    others.iter().all(|other| is_apart(range, *other))
}

/// Whether no number is in two of the ranges.
pub(crate) fn are_disjoint(ranges: &[Range]) -> bool
    ensures { IsTrue result ↔ AreDisjoint ranges.now }
{
    for i in 0..ranges.len() {
        if !is_apart_from_all(ranges[i], &ranges[i + 1..]) {
            return false;
        }
    }
    true
}

/// A printer for each range, with the numbers of that range, each over a store of its own.
///
/// # Errors
/// `AllocError` where memory is refused.
pub(crate) fn create_printers<A: Allocator + Copy>(
    alloc: A,
    ranges: &[Range],
) -> Result<Vec<PrinterActor<A>, A>, AllocError>
    requires ranges { AreIdRanges ranges.now }
    requires disjoint { AreDisjoint ranges.now }
    ensures fresh { IfOk result (λ printers. AreFresh ranges.now printers.items) }
    ensures few { IfOk result (λ printers. length printers.items ≤ 65536) }
{
    let mut printers = Vec::with_capacity(alloc, ranges.len())?;
    for (number, range) in ranges.iter().enumerate() {
        match Printer::create(alloc, MemStore::new(alloc), number as u16, *range) {
            Ok(printer) => printers.push_reserved(PrinterActor::Running(printer)),
            Err(
                CreateRefused {
                    fault: CreateFault::Memory,
                    store: _,
                },
            ) => return Err(AllocError),
            // A store that is new holds nothing and meets no fault.
            Err(_) => unreachable!(),
        }
    }
    Ok(printers)
}
