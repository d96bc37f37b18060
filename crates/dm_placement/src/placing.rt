//! The mapping matrix of the codewords of a symbol.

ghost use Rattle.std.specs.Prelude.{◌≡◌, IfOk, length};
ghost use Rattle.dm_size.specs.{Sizes.all_words, Squares.light_square};
ghost use Rattle.dm_placement.specs.Placement.{dark_cells, placed, with_dark};
ghost use Rattle.dm_placement.specs.inner.Places.{HasPlaced, IsSideSound};

use crate::bits::bits_of;
use crate::layout::Layout;
use crate::walk::{Taker, walk};
use dm_size::{Matrix, Size};
use std::alloc::{AllocError, Allocator};

// A matrix in which the dark free cells are dark, and all other cells are light.
#[tactic(auto, unfolding(crate::specs::Placement::dark_cells))]
fn blank<A: Allocator>(alloc: A, side: u16) -> Result<Matrix<A>, AllocError>
    requires { IsSideSound side }
    ensures { IfOk result (λ m. m ≡ with_dark (light_square side) (dark_cells side)) }
{
    let mut matrix = Matrix::light(alloc, side)?;
    if side * side % 8 == 4 {
        matrix.set(side - 1, side - 1, true);
        matrix.set(side - 2, side - 2, true);
    }
    Ok(matrix)
}

// Draws the codewords of a symbol.
#[derive(Drop)]
struct Placing<'a, A: Allocator> {
    words: &'a [u8],
    placed: usize,
    matrix: Matrix<A>,
}

impl<A: Allocator> Taker for Placing<'_, A> {
    ghost has_taken = { λ first p s k. HasPlaced s p.words.now k p.placed p.matrix × (p.words.now ≡ first.words.now) };

    #[inline(always)]
    fn take(&mut self, places: [usize; 8]) {
        let bits = bits_of(self.words[self.placed]);
        // the bits of a codeword in a loop of their own, which the compiler writes out
        let matrix = &mut self.matrix;
        for b in 0..8usize {
            matrix.make(places[b], bits[b]);
        }
        self.placed += 1;
    }
}

/// The mapping matrix of all codewords of a symbol, data codewords first, by Annex F of ISO/IEC 16022:2006: a bit 1 is
/// a dark module.
///
/// # Errors
/// Where the allocator refuses its memory.
#[tactic(auto, using(crate::proofs::TakenPlaces::drawn_last))]
pub fn place<A: Allocator + Copy>(
    alloc: A,
    size: Size,
    words: &[u8],
) -> Result<Matrix<A>, AllocError>
    requires count { length words.now ≡ all_words size }
    ensures placed { IfOk result (λ m. m ≡ placed size words.now) }
{
    let matrix = blank(alloc, size.mapping())?;
    let mut placing = Placing {
        words,
        placed: 0,
        matrix,
    };
    walk(size, &mut placing);
    Ok(placing.matrix)
}

/// `place`, by a layout made before.
///
/// # Errors
/// Where the allocator refuses the matrix's memory.
#[tactic(auto, using(crate::proofs::TakenPlaces::drawn_last))]
pub fn place_with<A: Allocator>(
    alloc: A,
    layout: &Layout<A>,
    words: &[u8],
) -> Result<Matrix<A>, AllocError>
    requires count { length words.now ≡ all_words layout.now }
    ensures placed { IfOk result (λ m. m ≡ placed layout.now words.now) }
{
    let matrix = blank(alloc, layout.size().mapping())?;
    let mut placing = Placing {
        words,
        placed: 0,
        matrix,
    };
    layout.hand_over(&mut placing);
    Ok(placing.matrix)
}
