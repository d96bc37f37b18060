//! `relay plan`: the sides at which a document can be cut into labels.

ghost use Rattle.relay_printer_commands.specs.Printers.{IsPlan, EndsPlan, side_line};
ghost use Rattle.std.specs.List.{flat_map};
ghost use Rattle.relay_streams.specs.Streams.{TakesPart};
ghost use Rattle.relay_shared.specs.Command.{PutsText};

use crate::lines::{PlannedSide, put_side};
use arrayvec::ArrayVec;
use dm_encodation::Scheme;
use dm_print_ledger::{PrintFault, label_count};
use dm_size::Size;
use relay_shared::{DOCUMENT_BYTES, Streams, read_document, refuse, status_after};
use relay_streams::{Output, WriteFault};
use std::alloc::Allocator;
use std::io::{Read, Write};

// Each side of which a document has labels, the smallest first.
fn plan_of(document: &[u8], scheme: Scheme) -> ArrayVec<PlannedSide, 23>
    ensures { IsPlan scheme document.now result.items }
{
    let mut plan = ArrayVec::new();
    for size in Size::all() {
        if let Some(count) = label_count(document, size, scheme) {
            plan.push(PlannedSide {
                side: size.side(),
                count,
            });
        }
    }
    plan
}

fn put_plan<W: Write>(output: &mut Output<W>, plan: &[PlannedSide]) -> Result<(), WriteFault>
    ensures { PutsText (flat_map side_line plan.now) output.old result output.new }
{
    for planned in plan {
        put_side(output, *planned)?;
    }
    Ok(())
}

/// Prints a line `side N labels K` for each side for which a document can be cut, the smallest first, where K is the
/// number of its labels; or the line `refused NAME`, `TooLong` where there is no such side. At most 41,601 bytes of the
/// input are read. No memory is taken but the document's.
pub fn plan_command<A: Allocator + Copy, R: Read, W: Write, E: Write>(
    alloc: A,
    streams: &mut Streams<R, W, E>,
    scheme: Scheme,
) -> u8
    ensures part { TakesPart streams.old.input.remaining streams.new.input.remaining DOCUMENT_BYTES }
    ensures ends { EndsPlan scheme streams.old result streams.new }
{
    let document = match read_document(alloc, &mut streams.input) {
        Ok(document) => document,
        Err(fault) => return refuse(&mut streams.output, fault.name()),
    };
    let plan = plan_of(&document, scheme);
    if plan.is_empty() {
        return refuse(&mut streams.output, PrintFault::TooLong.name());
    }
    status_after(put_plan(&mut streams.output, plan.as_slice()))
}
