//! The shapes in which the eight bits of a codeword stand on the mapping matrix.

ghost use Rattle.std.specs.Prelude.{◌≡◌, ◌<◌, ◌≤◌, ◌+◌, ◌*◌, map};
ghost use Rattle.dm_placement.specs.Placement.{cell_from_anchor, shape_cells, place_of};
ghost use Rattle.dm_placement.specs.inner.Places.{MayBeAnchor, IsPlaceable, IsSideSound};

/// A module of the mapping matrix, by its row and its column, both from 0.
#[derive(Clone, Copy, Debug, PartialEq, Eq)]
pub struct Cell {
    pub row: usize,
    pub column: usize,
}

/// The shape of a codeword: the plain one at its anchor, or one of the two that span two corners. The third and the
/// fourth corner shape of Annex F occur in rectangles only.
#[derive(Clone, Copy, Debug, PartialEq, Eq)]
pub enum Shape {
    Plain(Cell),
    CornerOne,
    CornerTwo,
}

// Where the module of a row and a column stands, row by row.
#[inline(always)]
fn place_at(side: usize, row: usize, column: usize) -> usize
    requires side { IsSideSound side }
    requires in_rows { row < side }
    requires in_columns { column < side }
    ensures { result ≡ row * side + column }
{
    row * side + column
}

// The cell that stands `up` rows above and `left` columns left of an anchor. What leaves the matrix at the top comes in
// again at the bottom, and what leaves it at the left comes in again at the right.
#[inline(always)]
#[tactic(auto, unfolding(crate::specs::Placement::cell_from_anchor))]
fn cell_from_anchor(side: usize, anchor: Cell, up: usize, left: usize) -> Cell
    requires side { IsSideSound side }
    requires anchor { MayBeAnchor side anchor }
    requires up_two { up ≤ 2 }
    requires left_two { left ≤ 2 }
    ensures cell { result ≡ cell_from_anchor side anchor up left }
    ensures in_rows { result.row < side }
    ensures in_columns { result.column < side }
{
    // Here 0 stands for row or column -side, and side for row or column 0.
    let mut row = anchor.row + side - up;
    let mut column = anchor.column + side - left;
    if row < side {
        row += side;
        column = column + 4 - (side + 4) % 8;
    }
    if column < side {
        column += side;
        row = row + 4 - (side + 4) % 8;
    }
    Cell {
        row: row - side,
        column: column - side,
    }
}

// Where the module that stands `up` rows above and `left` columns left of an anchor stands, row by row.
#[inline(always)]
fn place_from_anchor(side: usize, anchor: Cell, up: usize, left: usize) -> usize
    requires side { IsSideSound side }
    requires anchor { MayBeAnchor side anchor }
    requires up_two { up ≤ 2 }
    requires left_two { left ≤ 2 }
    ensures { result ≡ place_of side (cell_from_anchor side anchor up left) }
{
    let cell = cell_from_anchor(side, anchor, up, left);
    place_at(side, cell.row, cell.column)
}

/// Where the bits of a codeword of the plain shape stand whose anchor is two rows and two columns or more inside of the
/// matrix, so that none of them wraps.
#[inline(always)]
pub(crate) fn places_inside(side: usize, anchor: Cell) -> [usize; 8]
    requires side { IsSideSound side }
    requires rows { (2 ≤ anchor.row) × (anchor.row < side) }
    requires columns { (2 ≤ anchor.column) × (anchor.column < side) }
    ensures { result ≡ map (place_of side) (shape_cells side (Shape.Plain anchor)) }
{
    let at = place_at(side, anchor.row, anchor.column);
    [
        at - 2 * side - 2,
        at - 2 * side - 1,
        at - side - 2,
        at - side - 1,
        at - side,
        at - 2,
        at - 1,
        at,
    ]
}

/// Where bits 1 to 8 of a codeword stand, row by row. Few codewords ask it, so it stays out of the walk's loops.
#[inline(never)]
#[tactic(auto, unfolding(crate::specs::Placement::shape_cells))]
pub(crate) fn places_of(side: usize, shape: Shape) -> [usize; 8]
    requires side { IsSideSound side }
    requires fits { IsPlaceable side shape }
    ensures { result ≡ map (place_of side) (shape_cells side shape) }
{
    match shape {
        Shape::Plain(p) => [
            place_from_anchor(side, p, 2, 2),
            place_from_anchor(side, p, 2, 1),
            place_from_anchor(side, p, 1, 2),
            place_from_anchor(side, p, 1, 1),
            place_from_anchor(side, p, 1, 0),
            place_from_anchor(side, p, 0, 2),
            place_from_anchor(side, p, 0, 1),
            place_from_anchor(side, p, 0, 0),
        ],
        Shape::CornerOne => [
            place_at(side, side - 1, 0),
            place_at(side, side - 1, 1),
            place_at(side, side - 1, 2),
            place_at(side, 0, side - 2),
            place_at(side, 0, side - 1),
            place_at(side, 1, side - 1),
            place_at(side, 2, side - 1),
            place_at(side, 3, side - 1),
        ],
        Shape::CornerTwo => [
            place_at(side, side - 3, 0),
            place_at(side, side - 2, 0),
            place_at(side, side - 1, 0),
            place_at(side, 0, side - 4),
            place_at(side, 0, side - 3),
            place_at(side, 0, side - 2),
            place_at(side, 0, side - 1),
            place_at(side, 1, side - 1),
        ],
    }
}
