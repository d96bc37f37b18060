//! The walk over the mapping matrix, by the three loops of ISO/IEC 16022:2006, Annex F. It needs no table of taken
//! cells: the only cells that are taken before it comes to them are the two that are left out for the second corner
//! shape.

ghost use Rattle.std.specs.{Prelude.◌≡◌, Prelude.◌+◌, Prelude.ℕ, Prelude.length, Option.option_to_list};
ghost use Rattle.dm_size.specs.{declared.size.Size.Size, Sizes.all_words, Sizes.mapping};
ghost use Rattle.dm_placement.specs.Placement.{is_left_out};
ghost use Rattle.dm_placement.specs.inner.Places.{AreOfWord, ComesTo, IsSideSound, corner_at, word_at};

use crate::shape::{Cell, Shape, places_inside, places_of};
use dm_size::Size;

// Rows and columns of the walk count from this many above and left of the matrix: it never goes further out on those
// sides.
const MARGIN: usize = 2;

/// What takes the places of the codewords of a size, one codeword after another.
pub(crate) trait Taker {
    // since it was the first of these two it has taken this many codewords of a size
    ghost has_taken: { Self → Self → Size → ℕ → Type 0 };

    /// Takes the places of the bits of the next codeword.
    fn take(&mut self, places: [usize; 8])
        requires { (first : Self) × (s : Size) × (k : ℕ) × has_taken first self.old s k × AreOfWord s k places }
        ensures { (first : Self) (s : Size) (k : ℕ) → has_taken first self.old s k → AreOfWord s k places
            → has_taken first self.new s (k + 1) };
}

// Whether a cell is one of the two that no codeword has as its anchor, since the second corner shape stands there.
#[inline(always)]
#[tactic(auto, unfolding(crate::specs::Placement::is_left_out))]
fn is_left_out(side: usize, cell: Cell) -> bool
    requires { IsSideSound side }
    ensures { result ≡ is_left_out side cell }
{
    side % 8 == 6
        && (cell.row == side - 2 && cell.column == 0 || cell.row == 0 && cell.column == side - 2)
}

// The corner shape that an upward sweep from a position begins with, if any.
#[inline(always)]
#[tactic(auto, unfolding(crate::specs::inner::Places::corner_at))]
fn corner_at(side: usize, row: usize, column: usize) -> Option<Shape>
    requires { IsSideSound side }
    ensures { option_to_list result ≡ corner_at side row column }
{
    if row == side + MARGIN && column == MARGIN {
        Some(Shape::CornerOne)
    } else if row == side && column == MARGIN && side % 4 != 0 {
        Some(Shape::CornerTwo)
    } else {
        None
    }
}

// The codeword at a position of the walk, if any.
#[inline(always)]
#[tactic(auto, unfolding(crate::specs::inner::Places::word_at))]
fn word_at(side: usize, row: usize, column: usize) -> Option<Shape>
    requires { IsSideSound side }
    ensures { option_to_list result ≡ word_at side row column }
{
    if row < MARGIN || row >= side + MARGIN || column < MARGIN || column >= side + MARGIN {
        return None;
    }
    let anchor = Cell {
        row: row - MARGIN,
        column: column - MARGIN,
    };
    if is_left_out(side, anchor) {
        return None;
    }
    Some(Shape::Plain(anchor))
}

// Hands over the places of a shape, if there is one.
#[inline(always)]
fn take_shape<T: Taker>(side: usize, shape: Option<Shape>, taker: &mut T)
    requires side { IsSideSound side }
    requires comes { (first : T) × (s : Size) × (k : ℕ) × (side ≡ mapping s) × T.has_taken first taker.old s k
        × ComesTo side k (option_to_list shape) }
    ensures { (first : T) (s : Size) (k : ℕ) → side ≡ mapping s → T.has_taken first taker.old s k
        → ComesTo side k (option_to_list shape) → T.has_taken first taker.new s (k + length (option_to_list shape)) }
{
    if let Some(shape) = shape {
        taker.take(places_of(side, shape));
    }
}

// Hands over the places of the codeword at a position, if there is one. Most stand inside, where no bit wraps.
#[inline(always)]
fn take_word<T: Taker>(side: usize, row: usize, column: usize, taker: &mut T)
    requires side { IsSideSound side }
    requires comes { (first : T) × (s : Size) × (k : ℕ) × (side ≡ mapping s) × T.has_taken first taker.old s k
        × ComesTo side k (word_at side row column) }
    ensures { (first : T) (s : Size) (k : ℕ) → side ≡ mapping s → T.has_taken first taker.old s k
        → ComesTo side k (word_at side row column)
        → T.has_taken first taker.new s (k + length (word_at side row column)) }
{
    if row >= 2 * MARGIN && row < side + MARGIN && column >= 2 * MARGIN && column < side + MARGIN {
        let anchor = Cell {
            row: row - MARGIN,
            column: column - MARGIN,
        };
        taker.take(places_inside(side, anchor));
    } else {
        take_shape(side, word_at(side, row, column), taker);
    }
}

/// Hands over the places of all codewords of a size, in order.
#[inline(always)]
pub(crate) fn walk<T: Taker>(size: Size, taker: &mut T)
    requires { T.has_taken taker.old taker.old size 0 }
    ensures { T.has_taken taker.old taker.new size (all_words size) }
{
    let side = size.mapping() as usize;
    let mut row = 4 + MARGIN;
    let mut column = MARGIN;
    'sweeps: while row < side + MARGIN || column < side + MARGIN {
        take_shape(side, corner_at(side, row, column), taker);
        'up: while row >= MARGIN && column < side + MARGIN {
            take_word(side, row, column, taker);
            row -= 2;
            column += 2;
        }
        row += 1;
        column += 3;
        'down: while row < side + MARGIN && column >= MARGIN {
            take_word(side, row, column, taker);
            row += 2;
            column -= 2;
        }
        row += 3;
        column += 1;
    }
}
