//! The cells of all bits of a size, kept for several symbols.

ghost use Rattle.std.specs.Prelude.{◌≡◌, ◌<◌, ◌≤◌, IfOk, vec_capacity};
ghost use Rattle.dm_size.specs.{declared.size.Size.Size, Sizes.all_words, Sizes.mapping};
ghost use Rattle.dm_placement.specs.{Placement.cell, Placement.IsBit, inner.Places.HasKept};

use crate::walk::{Taker, walk};
use dm_size::Size;
use std::alloc::{AllocError, Allocator, Global};
use std::marker::Model;

/// The cell of every bit of every codeword of a size, as Annex F of ISO/IEC 16022:2006 places them. Each is kept as the
/// place of its module, row by row.
#[derive(Drop)]
pub struct Layout<A: Allocator = Global> {
    size: Size,
    // those of the eight bits of each codeword
    places: Vec<[usize; 8], A>,
}

impl<A: Allocator> Model for Layout<A> {
    ghost Value = { Size };

    ghost view = { λ l. l.size };

    ghost invariant = { λ l. HasKept l.size (all_words l.size) l.places.items };
}

// Keeps the places of the codewords of a size.
impl<A: Allocator> Taker for Vec<[usize; 8], A> {
    ghost has_taken = { λ _ v s k. HasKept s k v.items × (all_words s ≤ vec_capacity v) };

    #[inline(always)]
    fn take(&mut self, places: [usize; 8]) {
        self.push_reserved(places);
    }
}

impl<A: Allocator> Layout<A> {
    /// The layout of a size.
    ///
    /// # Errors
    /// Where the allocator refuses its memory.
    pub fn of_size(alloc: A, size: Size) -> Result<Layout<A>, AllocError>
        ensures { IfOk result (λ l. l ≡ size) }
    {
        let mut places = Vec::with_capacity(alloc, size.all_words())?;
        walk(size, &mut places);
        Ok(Layout { size, places })
    }

    /// The size whose layout it is.
    pub fn size(&self) -> Size
        ensures { result ≡ self.now }
    {
        self.size
    }

    /// The row and the column, both from 0, at which a bit of a codeword stands. Codewords count from 0, and bits from
    /// 1, the most significant one, to 8.
    pub fn cell(&self, word: usize, bit: u8) -> (u16, u16)
        requires { IsBit self.now word bit }
        ensures row { result.0 ≡ (cell self.now word bit).row }
        ensures column { result.1 ≡ (cell self.now word bit).column }
        ensures in_rows { result.0 < mapping self.now }
        ensures in_columns { result.1 < mapping self.now }
    {
        let place = self.places[word][bit as usize - 1];
        let side = self.size.mapping() as usize;
        ((place / side) as u16, (place % side) as u16)
    }

    /// Hands over the places of all codewords of its size, in order.
    #[inline(always)]
    pub(crate) fn hand_over<T: Taker>(&self, taker: &mut T)
        requires { T.has_taken taker.old taker.old self.now 0 }
        ensures { T.has_taken taker.old taker.new self.now (all_words self.now) }
    {
        for places in &self.places {
            taker.take(*places);
        }
    }
}
