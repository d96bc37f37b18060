//! Places of a symbol within its framed data regions.

ghost use Rattle.std.specs.Prelude.{◌≡◌, ◌<◌, ◌/◌, ◌%◌, IfSome};
ghost use Rattle.dm_size.specs.Sizes.{mapping, side};
ghost use Rattle.dm_finder_frame.specs.Frame.{mapping_cell};

use dm_size::Size;

/// In which band of rows of one height a row stands, and its place there. Small symbols have one band, and to divide
/// costs more.
#[inline(always)]
pub(crate) fn band_of(row: u16, height: u16) -> (u16, u16)
    requires { 0 < height }
    ensures band { result.0 ≡ row / height }
    ensures place { result.1 ≡ row % height }
{
    if row < height {
        (0, row)
    } else {
        (row / height, row % height)
    }
}

/// The row and the column in the mapping matrix of a grid's module, or `None` on a finder pattern; all from 0
/// (ISO/IEC 16022:2006, 5.8).
pub fn cell_of(size: Size, row: u16, column: u16) -> Option<(u16, u16)>
    requires row_in { row < side size }
    requires column_in { column < side size }
    ensures cell { result ≡ mapping_cell size row column }
    ensures within { IfSome result (λ cell. (cell.0 < mapping size) × (cell.1 < mapping size)) }
{
    let region = size.region();
    let framed = region + 2;
    let r = row % framed;
    let c = column % framed;
    if r == 0 || r == region + 1 || c == 0 || c == region + 1 {
        return None;
    }
    Some((
        row / framed * region + r - 1,
        column / framed * region + c - 1,
    ))
}
