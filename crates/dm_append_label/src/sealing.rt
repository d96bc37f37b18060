//! From a page to its label.

ghost use Rattle.std.specs.Prelude.{IfOk, IsErrOf, ◌↔◌};
ghost use Rattle.dm_append_label.specs.Labels.{Carries, IsTooLong, Seals};
ghost use Rattle.dm_append_label.specs.inner.ReadHeads.{IsDataOf};
ghost use Rattle.dm_append_label.specs.declared.fault.SealFault.TheVariants.{TooLong};

use crate::fault::SealFault;
use crate::head::{HEAD_WORDS, Head, words_of_head};
use crate::page::Page;
use dm_encodation::{EncodeFault, Scheme, encode};
use dm_finder_frame::Grid;
use dm_size::Size;
use dm_symbol::draw_symbol;
use std::alloc::Allocator;

// The data codewords of a page's label.
fn data_words<A: Allocator + Copy>(
    alloc: A,
    page: &Page<A>,
    size: Size,
    scheme: Scheme,
) -> Result<Vec<u8, A>, SealFault>
    ensures data { IfOk result (λ words. IsDataOf size scheme page.now words.items) }
    ensures too_long { IsErrOf result TooLong ↔ IsTooLong size scheme page.now.bytes }
{
    if size.data_words() < HEAD_WORDS {
        return Err(SealFault::TooLong);
    }
    let head = words_of_head(Head {
        m: page.m(),
        n: page.n(),
        id: page.id(),
    });
    match encode(alloc, scheme, page.bytes(), &head, size) {
        Ok(data) => Ok(data),
        Err(EncodeFault::TooLong) => Err(SealFault::TooLong),
        Err(EncodeFault::Memory) => Err(SealFault::Memory),
    }
}

/// The label of a page: the grid of the symbol of this size whose data codewords are the page's head, the text of its
/// bytes in this encodation, and pads (ISO/IEC 16022:2006, 5.2 and 5.6).
///
/// # Errors
/// `TooLong` where the size has no room, before any memory is asked for; `Memory` where the allocator refuses.
pub fn seal<A: Allocator + Copy>(
    alloc: A,
    page: &Page<A>,
    size: Size,
    scheme: Scheme,
) -> Result<Grid<A>, SealFault>
    ensures sealed { IfOk result (Seals size scheme page.now) }
    ensures carries { IfOk result (Carries page.now) }
    ensures too_long { IsErrOf result TooLong ↔ IsTooLong size scheme page.now.bytes }
{
    let data = data_words(alloc, page, size, scheme)?;
    Ok(draw_symbol(alloc, size, &data)?)
}
