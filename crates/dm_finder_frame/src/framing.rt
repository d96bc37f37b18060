//! From the mapping matrix to the grid.

ghost use Rattle.std.specs.Prelude.{◌≡◌, ◌<◌, ◌≤◌, ◌+◌, ◌*◌, ◌%◌, IfOk, OnOk};
ghost use Rattle.dm_size.specs.Sizes.{across as across_of, mapping, region, side};
ghost use Rattle.dm_finder_frame.specs.Frame.{grid_module, grid_of_matrix, mapping_place};
ghost use Rattle.dm_finder_frame.specs.inner.Filled.{first_modules};

use crate::grid::Grid;
use dm_size::{Matrix, Size};
use std::alloc::{AllocError, Allocator};

// The top row of the framed regions, as wide as the largest grid: dark at even columns.
static TOP: [bool; 132] = [
    true, false, true, false, true, false, true, false, true, false, true, false, true, false,
    true, false, true, false, true, false, true, false, true, false, true, false, true, false,
    true, false, true, false, true, false, true, false, true, false, true, false, true, false,
    true, false, true, false, true, false, true, false, true, false, true, false, true, false,
    true, false, true, false, true, false, true, false, true, false, true, false, true, false,
    true, false, true, false, true, false, true, false, true, false, true, false, true, false,
    true, false, true, false, true, false, true, false, true, false, true, false, true, false,
    true, false, true, false, true, false, true, false, true, false, true, false, true, false,
    true, false, true, false, true, false, true, false, true, false, true, false, true, false,
    true, false, true, false, true, false,
];

// Their bottom row.
static BOTTOM: [bool; 132] = [true; 132];

// Adds a row of the grid that is inside of its framed regions, `across` of them side by side, from a row of the mapping
// matrix. Framed regions have even sides, so the parity of a row in its region is its parity in the grid.
#[tactic(auto, using(crate::proofs::RowSteps::inner_fits, crate::proofs::RowSteps::inner_more, crate::proofs::GridPlaces::even_columns, crate::proofs::GridPlaces::fills_side, crate::proofs::GridPlaces::mapping_place_below, std::proofs::Common::append_assoc))]
fn push_inner_row<A: Allocator>(
    modules: &mut Vec<bool, A>,
    size: Size,
    matrix: &Matrix<A>,
    row: u16,
    from: u16,
    across: u16,
) -> Result<(), AllocError>
    requires same_side { matrix.now.side ≡ mapping size }
    requires row_in { row < side size }
    requires inside { (1 ≤ row % (region size + 2)) × (row % (region size + 2) ≤ region size) }
    requires from { from ≡ mapping_place (region size) row }
    requires across { across ≡ across_of size }
    requires above { modules.old.items ≡ first_modules (side size) (grid_module size matrix.now) (row * side size) }
    ensures { OnOk result
        (modules.new.items ≡ first_modules (side size) (grid_module size matrix.now) ((row + 1) * side size)) }
{
    let line = matrix.row(from);
    let width = size.region() as usize;
    for b in 0..across as usize {
        modules.push(true)?;
        modules.extend_from_slice(&line[b * width..b * width + width])?;
        modules.push(row % 2 == 1)?;
    }
    Ok(())
}

// Adds the rows of a band of framed regions, `across` of them side by side. To divide for each row costs more.
#[tactic(auto, using(crate::proofs::RowSteps::if_added, crate::proofs::RowSteps::top_more, crate::proofs::RowSteps::band_more, crate::proofs::RowSteps::in_band))]
fn push_band<A: Allocator>(
    modules: &mut Vec<bool, A>,
    size: Size,
    matrix: &Matrix<A>,
    band: u16,
    across: u16,
) -> Result<(), AllocError>
    requires same_side { matrix.now.side ≡ mapping size }
    requires band_in { band < across }
    requires across { across ≡ across_of size }
    requires above { modules.old.items
        ≡ first_modules (side size) (grid_module size matrix.now) (band * (region size + 2) * side size) }
    ensures { OnOk result (modules.new.items
        ≡ first_modules (side size) (grid_module size matrix.now) ((band + 1) * (region size + 2) * side size)) }
{
    let region = size.region();
    let first = band * (region + 2);
    let end = size.side() as usize;
    modules.extend_from_slice(&TOP[..end])?;
    for place in 0..region {
        let (row, from) = (first + place + 1, band * region + place);
        push_inner_row(modules, size, matrix, row, from, across)?;
    }
    modules.extend_from_slice(&BOTTOM[..end])
}

/// The whole symbol of a mapping matrix: its data regions, each within its finder pattern
/// (ISO/IEC 16022:2006, 5.8).
///
/// # Errors
/// Where the allocator refuses its memory.
#[tactic(auto, using(crate::proofs::RowSteps::module_counts), unfolding(crate::specs::Frame::grid_modules))]
pub fn frame<A: Allocator>(alloc: A, size: Size, matrix: &Matrix<A>) -> Result<Grid<A>, AllocError>
    requires same_side { matrix.now.side ≡ mapping size }
    ensures { IfOk result (λ grid. grid ≡ grid_of_matrix size matrix.now) }
{
    let side = size.side() as usize;
    let across = size.across();
    let mut modules = Vec::with_capacity(alloc, side * side)?;
    for band in 0..across {
        push_band(&mut modules, size, matrix, band, across)?;
    }
    Ok(Grid::from_modules(size, modules))
}
