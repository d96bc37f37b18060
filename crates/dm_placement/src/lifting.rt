//! The codewords that a mapping matrix holds.

ghost use Rattle.std.specs.Prelude.{◌≡◌, ◌<◌, ◌≤◌, ◌*◌, All, IfOk, length};
ghost use Rattle.dm_size.specs.Sizes.{mapping, all_words};
ghost use Rattle.dm_placement.specs.{Placement.lifted, inner.Places.HasRead, inner.Places.word_from_places};

use crate::layout::Layout;
use crate::walk::{Taker, walk};
use arrayvec::ArrayVec;
use dm_size::{Matrix, Size};
use std::alloc::{AllocError, Allocator};

/// The most codewords of a symbol: those of side 132.
pub const MOST_WORDS: usize = 1800;

// The codeword whose bits stand at these places, among these modules.
#[tactic(auto, using(std::proofs::lemmas::Grind::common_steps, crate::proofs::BinaryDigits::byte_number, crate::proofs::BinaryDigits::more_below, crate::proofs::BinaryDigits::number_more))]
#[inline(always)]
fn word_at(places: &[usize; 8], modules: &[bool]) -> u8
    requires { All (λ place. place < length modules.now) places.now }
    ensures { result ≡ word_from_places modules.now places.now }
{
    let mut word = 0u8;
    for b in 0..8usize {
        word = 2 * word + u8::from(modules[places[b]]);
    }
    word
}

// Reads the codewords of these modules.
#[derive(Drop)]
struct Lifting<'a, const ROOM: usize> {
    modules: &'a [bool],
    words: ArrayVec<u8, ROOM>,
}

impl<const ROOM: usize> Taker for Lifting<'_, ROOM> {
    ghost has_taken = { λ first l s k. HasRead s l.modules.now k l.words.items
        × (l.modules.now ≡ first.modules.now) × (all_words s ≤ ROOM) };

    #[inline(always)]
    fn take(&mut self, places: [usize; 8]) {
        self.words.push(word_at(&places, self.modules));
    }
}

/// The codewords that the modules of a mapping matrix hold, row by row, by a walk of its own. It takes no memory.
#[tactic(auto, using(crate::proofs::TakenPlaces::read_all, crate::proofs::TakenPlaces::read_count))]
pub fn words_in<const ROOM: usize>(size: Size, modules: &[bool]) -> ArrayVec<u8, ROOM>
    requires whole { length modules.now ≡ mapping size * mapping size }
    requires room { all_words size ≤ ROOM }
    requires small { ROOM ≤ MOST_WORDS }
    ensures lifted { result.items ≡ lifted size (record { side = mapping size; modules = modules.now }) }
    ensures count { length result.items ≡ all_words size }
{
    let mut lifting = Lifting {
        modules,
        words: ArrayVec::new(),
    };
    walk(size, &mut lifting);
    lifting.words
}

/// [`words_in`], in a room for any size.
#[tactic(auto, using(crate::proofs::EachSize::few_words))]
pub fn words_of(size: Size, modules: &[bool]) -> ArrayVec<u8, MOST_WORDS>
    requires whole { length modules.now ≡ mapping size * mapping size }
    ensures lifted { result.items ≡ lifted size (record { side = mapping size; modules = modules.now }) }
    ensures count { length result.items ≡ all_words size }
{
    words_in(size, modules)
}

/// The codewords that a mapping matrix holds, each bit read at its cell by Annex F of ISO/IEC 16022:2006: a dark module
/// is a bit 1. Free cells hold no bit.
///
/// # Errors
/// Where the allocator refuses its memory.
pub fn lift<A: Allocator + Copy>(
    alloc: A,
    size: Size,
    matrix: &Matrix<A>,
) -> Result<Vec<u8, A>, AllocError>
    requires same_side { matrix.now.side ≡ mapping size }
    ensures lifted { IfOk result (λ words. words.items ≡ lifted size matrix.now) }
    ensures count { IfOk result (λ words. length words.items ≡ all_words size) }
{
    Vec::from_slice(alloc, words_of(size, matrix.modules()).as_slice())
}

/// `lift`, by a layout made before.
///
/// # Errors
/// Where the allocator refuses the codewords' memory.
#[tactic(auto, using(crate::proofs::EachSize::few_words))]
pub fn lift_with<A: Allocator>(
    alloc: A,
    layout: &Layout<A>,
    matrix: &Matrix<A>,
) -> Result<Vec<u8, A>, AllocError>
    requires same_side { matrix.now.side ≡ mapping layout.now }
    ensures lifted { IfOk result (λ words. words.items ≡ lifted layout.now matrix.now) }
    ensures count { IfOk result (λ words. length words.items ≡ all_words layout.now) }
{
    let mut lifting = Lifting {
        modules: matrix.modules(),
        words: ArrayVec::<u8, MOST_WORDS>::new(),
    };
    layout.hand_over(&mut lifting);
    Vec::from_slice(alloc, lifting.words.as_slice())
}
