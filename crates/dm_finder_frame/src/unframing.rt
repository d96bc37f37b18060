//! From the grid to the mapping matrix.

ghost use Rattle.std.specs.Prelude.{◌≡◌, ◌<◌, ◌≤◌, ◌+◌, ◌*◌, ◌%◌, ◌⊎◌, ◌||◌, ◌==◌, MatchResult, if◌then◌else◌, not};
ghost use Rattle.dm_size.specs.Sizes.{across as across_of, mapping, region, side};
ghost use Rattle.dm_finder_frame.specs.Frame.{matrix_module, matrix_of_grid, wrong_frame_modules, HasBadFrame, HasGoodFrame, Unframes};
ghost use Rattle.dm_finder_frame.specs.inner.Filled.{first_modules, wrong_among};

use crate::fault::{FrameFault, WrongFrame};
use crate::grid::{Grid, LentGrid};
use crate::region::band_of;
use arrayvec::ArrayVec;
use dm_size::{Matrix, Size};
use std::alloc::{Allocator, Global};

/// The most modules of a mapping matrix: those of side 132.
pub const MOST_MODULES: usize = 14_400;

/// A grid's matrix, with its frame taken off.
#[derive(Drop)]
pub struct Framed<A: Allocator = Global> {
    /// The size of the symbol.
    pub size: Size,
    /// Its mapping matrix.
    pub matrix: Matrix<A>,
    /// How many modules of the finder patterns are wrong.
    pub wrong: u16,
}

// Whether a module is not what it is to be.
#[inline(always)]
fn differs(dark: bool, wanted: bool) -> bool
    ensures { result ≡ (if dark then not wanted else wanted) }
{
    if dark { !wanted } else { wanted }
}

// Whether a module of the first or the last row of a framed region is to be dark. Framed regions have even sides, so
// the parity of a column in its region is its parity in the grid.
#[inline(always)]
fn is_dark_at_end(is_last: bool, column: u16) -> bool
    ensures { result ≡ (is_last || (column % 2 == 0)) }
{
    is_last || column % 2 == 0
}

// How many modules of the finder patterns are wrong in the first or the last row of framed regions.
fn wrong_in_row(grid: &LentGrid, row: u16, is_last: bool) -> u16
    requires row_in { row < side grid.now.size }
    requires at_end { let h = region grid.now.size in (row % (h + 2) ≡ 0) ⊎ (row % (h + 2) ≡ h + 1) }
    requires which { let h = region grid.now.size in is_last ≡ (row % (h + 2) == h + 1) }
    ensures count { result ≡ wrong_among grid.now (row * side grid.now.size) (side grid.now.size) }
    ensures most { result ≤ side grid.now.size }
{
    let line = grid.row(row);
    let mut wrong = 0;
    for column in 0..grid.size().side() {
        let wanted = is_dark_at_end(is_last, column);
        wrong += u16::from(differs(line[column as usize], wanted));
    }
    wrong
}

// The same of a row inside of its framed regions, where only the first and the last column of each region can be wrong.
// There are `across` regions side by side, each `framed` wide with its frame.
fn wrong_at_sides(grid: &LentGrid, row: u16, framed: u16, across: u16) -> u16
    requires row_in { row < side grid.now.size }
    requires inside { let h = region grid.now.size in (1 ≤ row % (h + 2)) × (row % (h + 2) ≤ h) }
    requires framed { framed ≡ region grid.now.size + 2 }
    requires across { across ≡ across_of grid.now.size }
    ensures count { result ≡ wrong_among grid.now (row * side grid.now.size) (side grid.now.size) }
    ensures most { result ≤ side grid.now.size }
{
    let line = grid.row(row);
    let is_odd = row % 2 == 1;
    let mut wrong = 0;
    for b in 0..across {
        let first = b as usize * framed as usize;
        let left = differs(line[first], true);
        let right = differs(line[first + framed as usize - 1], is_odd);
        wrong += u16::from(left) + u16::from(right);
    }
    wrong
}

// The same of any row, given its place in its framed regions.
fn wrong_of_row(grid: &LentGrid, row: u16, place: u16, framed: u16, across: u16) -> u16
    requires row_in { row < side grid.now.size }
    requires place { place ≡ row % (region grid.now.size + 2) }
    requires framed { framed ≡ region grid.now.size + 2 }
    requires across { across ≡ across_of grid.now.size }
    ensures count { result ≡ wrong_among grid.now (row * side grid.now.size) (side grid.now.size) }
    ensures most { result ≤ side grid.now.size }
{
    if place == 0 || place == framed - 1 {
        wrong_in_row(grid, row, place != 0)
    } else {
        wrong_at_sides(grid, row, framed, across)
    }
}

// How many modules of a grid's finder patterns are wrong. The place of each row is counted, since to divide costs more.
fn wrong_count(grid: &LentGrid) -> u16
    ensures { result ≡ wrong_frame_modules grid.now }
{
    let size = grid.size();
    let framed = size.region() + 2;
    let across = size.across();
    let mut wrong = 0;
    let mut place = 0;
    for row in 0..size.side() {
        wrong += wrong_of_row(grid, row, place, framed, across);
        place = if place == framed - 1 { 0 } else { place + 1 };
    }
    wrong
}

// Adds a row of the mapping matrix, from the grid.
#[tactic(auto, using(crate::proofs::FramedGrids::place_within, crate::proofs::RowSteps::matrix_fits, crate::proofs::RowSteps::matrix_more))]
fn push_row<const ROOM: usize>(modules: &mut ArrayVec<bool, ROOM>, grid: &LentGrid, row: u16)
    requires row_in { row < mapping grid.now.size }
    requires wide { let n = mapping grid.now.size in n * n ≤ ROOM }
    requires above { let n = mapping grid.now.size in
        modules.old.items ≡ first_modules n (matrix_module grid.now) (row * n) }
    ensures { let n = mapping grid.now.size in
        modules.new.items ≡ first_modules n (matrix_module grid.now) ((row + 1) * n) }
{
    let size = grid.size();
    let region = size.region();
    let (band, place) = band_of(row, region);
    let line = grid.row(band * (region + 2) + place + 1);
    let width = region as usize;
    for b in 0..size.across() as usize {
        let start = b * (width + 2) + 1;
        let Ok(()) = modules.try_extend_from_slice(&line[start..start + width]) else {
            unreachable!()
        };
    }
}

/// Fills the caller's room with the modules of a grid's mapping matrix, row by row, whatever its finder patterns are
/// (ISO/IEC 16022:2006, 5.8). It takes no memory, and copies no room.
#[tactic(auto, using(crate::proofs::RowSteps::all_rows), unfolding(crate::specs::Frame::matrix_modules))]
pub fn modules_in<const ROOM: usize>(grid: &LentGrid, modules: &mut ArrayVec<bool, ROOM>)
    requires { let n = mapping grid.now.size in n * n ≤ ROOM }
    ensures { modules.new.items ≡ (matrix_of_grid grid.now).modules }
{
    modules.clear();
    for row in 0..grid.size().mapping() {
        push_row(modules, grid, row);
    }
}

/// [`modules_in`], of a room for any size.
pub fn modules_of(grid: &LentGrid, modules: &mut ArrayVec<bool, MOST_MODULES>)
    ensures { modules.new.items ≡ (matrix_of_grid grid.now).modules }
{
    modules_in(grid, modules);
}

/// How many modules of a grid's finder patterns are wrong. It takes no memory.
///
/// # Errors
/// Where more than an eighth of them are, with their number.
#[tactic(auto, using(crate::proofs::RowSteps::counted))]
pub fn wrong_modules(grid: &LentGrid) -> Result<u16, WrongFrame>
    ensures { MatchResult result (λ wrong. HasGoodFrame grid.now × (wrong ≡ wrong_frame_modules grid.now))
        (λ fault. HasBadFrame grid.now fault.wrong) }
{
    let size = grid.size();
    let wrong = wrong_count(grid);
    let modules = size.regions() * (4 * size.region() + 4);
    if 8 * wrong as u32 > modules as u32 {
        return Err(WrongFrame { wrong });
    }
    Ok(wrong)
}

/// Takes the finder patterns off a grid (ISO/IEC 16022:2006, 5.8).
///
/// # Errors
/// `Border` where more than an eighth of the finder patterns' modules are wrong, with their number, before any memory
/// is asked for; `Memory` where the allocator refuses.
#[tactic(auto, using(crate::proofs::RowSteps::module_counts), unfolding(crate::specs::Frame::matrix_modules))]
pub fn unframe<A: Allocator>(alloc: A, grid: &Grid<A>) -> Result<Framed<A>, FrameFault>
    ensures { Unframes grid.now result }
{
    let wrong = wrong_modules(&grid.lend())?;
    let size = grid.size();
    let mut room = ArrayVec::new();
    modules_of(&grid.lend(), &mut room);
    let modules = room.as_slice().to_vec(alloc)?;
    Ok(Framed {
        size,
        matrix: Matrix::from_modules(size, modules),
        wrong,
    })
}
