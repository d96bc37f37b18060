//! The standard's own example: the digits 123456 in the smallest symbol, of side 10.

use dm_finder_frame::Grid;

/// Its three data codewords, and its five error correction codewords.
pub(crate) const WORDS: [u8; 8] = [142, 164, 186, 114, 25, 5, 88, 102];

// The modules of the whole symbol, row by row.
const MODULES: &[u8] = b"\
    1010101010\
    1100101101\
    1100000100\
    1100011101\
    1100001000\
    1000001111\
    1110110000\
    1111011001\
    1001110100\
    1111111111";

/// Its modules as a grid has them, row by row.
pub(crate) fn worked_modules() -> [bool; 100] {
    let mut modules = [false; 100];
    for (module, digit) in modules.iter_mut().zip(MODULES.iter()) {
        *module = *digit == b'1';
    }
    modules
}

/// Whether a grid is that symbol.
pub(crate) fn is_worked_example(grid: &Grid) -> bool {
    let modules = worked_modules();
    for row in 0..10u16 {
        let start = 10 * row as usize;
        if grid.side() != 10 || grid.lend().row(row) != &modules[start..start + 10] {
            return false;
        }
    }
    true
}

/// Flips modules, by row and column; those outside the grid are passed over.
pub(crate) fn flip_all(grid: &mut Grid, flips: &[(u16, u16)]) {
    for (row, column) in flips {
        if *row < grid.side() && *column < grid.side() {
            grid.flip(*row, *column);
        }
    }
}
