//! A symbol as a grid of modules.

ghost use Rattle.std.specs.Prelude.{◌≡◌, ◌<◌, ◌≤◌, ◌+◌, ◌*◌, ◌/◌, ◌%◌, All, IfOk, false, length, map, slice_index_or, slice_range};
ghost use Rattle.std.specs.List.{range_with_len};
ghost use Rattle.dm_size.specs.Sizes as sizes;
ghost use Rattle.dm_finder_frame.specs.Frame.{GridView, IsInGrid, IsWholeGrid, flipped, grid_module_at, grid_with_flipped, MakesGrid};

use crate::fault::GridFault;
use dm_size::Size;
use std::alloc::{AllocError, Allocator, Global};
use std::marker::Model;

/// All modules of a symbol, finder patterns included and the quiet zone left out.
#[derive(Drop)]
pub struct Grid<A: Allocator = Global> {
    size: Size,
    modules: Vec<bool, A>,
}

impl<A: Allocator> Model for Grid<A> {
    ghost Value = { GridView };

    ghost view = { λ g. record { size = g.size; modules = g.modules.items } };

    ghost invariant = { λ g. length g.modules.items ≡ sizes.side g.size * sizes.side g.size };
}

impl<A: Allocator> Grid<A> {
    /// The grid of a size and its modules, row by row from the top left; `true` is a dark module. It keeps the modules
    /// as they are handed in, and takes no memory.
    pub fn from_modules(size: Size, modules: Vec<bool, A>) -> Grid<A>
        requires { length modules.items ≡ sizes.side size * sizes.side size }
        ensures { result ≡ record { size = size; modules = modules.items } }
    {
        Grid { size, modules }
    }

    /// The grid of these modules, row by row from the top left; `true` is a dark module.
    ///
    /// # Errors
    /// `Side` where the side is not one of the 23, or the modules are not side * side; `Memory` where the allocator
    /// refuses.
    pub fn of_modules(alloc: A, side: u16, modules: &[bool]) -> Result<Grid<A>, GridFault>
        ensures { MakesGrid side modules.now result }
    {
        let Some(size) = Size::of_side(side) else {
            return Err(GridFault::Side);
        };
        if modules.len() != side as usize * side as usize {
            return Err(GridFault::Side);
        }
        Ok(Grid::from_modules(size, modules.to_vec(alloc)?))
    }

    /// The size of the symbol.
    pub fn size(&self) -> Size
        ensures same { result ≡ self.now.size }
        ensures whole { IsWholeGrid self.now }
    {
        self.size
    }

    /// Modules along a side.
    pub fn side(&self) -> u16
        ensures value { result ≡ sizes.side self.now.size }
        ensures sound { sizes.SizeIsSound self.now.size }
    {
        self.size.side()
    }

    // Where the module of a row and a column stands, row by row.
    fn index(&self, row: u16, column: u16) -> usize
        requires row_in { row < sizes.side self.now.size }
        requires column_in { column < sizes.side self.now.size }
        ensures value { result ≡ row * sizes.side self.now.size + column }
        ensures within { result < sizes.side self.now.size * sizes.side self.now.size }
    {
        row as usize * self.side() as usize + column as usize
    }

    /// Whether the module of a row and a column, both from 0, is dark.
    pub fn module(&self, row: u16, column: u16) -> bool
        requires row_in { row < sizes.side self.now.size }
        requires column_in { column < sizes.side self.now.size }
        ensures { result ≡ grid_module_at self.now row column }
    {
        self.modules[self.index(row, column)]
    }

    /// The grid, lent.
    pub fn lend(&self) -> LentGrid<'_>
        ensures { result ≡ self.now }
    {
        LentGrid::from_rows(self.size, &self.modules, self.size.side() as usize)
    }

    /// Flips the module of a row and a column, both from 0: dark to light, or light to dark.
    pub fn flip(&mut self, row: u16, column: u16)
        requires row_in { row < sizes.side self.old.size }
        requires column_in { column < sizes.side self.old.size }
        ensures { self.new ≡ grid_with_flipped self.old row column }
    {
        let at = self.index(row, column);
        self.modules[at] = !self.modules[at];
    }

    /// A copy of the grid, in memory of this allocator, with these modules (row and column, both from 0) flipped one
    /// after another. A module that is named twice is as it was.
    ///
    /// # Errors
    /// Where the allocator refuses its memory.
    pub fn with_flips(&self, alloc: A, flips: &[(u16, u16)]) -> Result<Grid<A>, AllocError>
        requires { All (IsInGrid self.now) flips.now }
        ensures { IfOk result (λ grid. grid ≡ flipped self.now flips.now) }
    {
        let mut grid = self.lend().copy(alloc)?;
        for (row, column) in flips {
            grid.flip(*row, *column);
        }
        Ok(grid)
    }
}

/// A grid whose modules stand row by row in those that somebody else holds, as in the pixels of an image.
#[derive(Drop)]
pub struct LentGrid<'a> {
    size: Size,
    modules: &'a [bool],
    // How far the beginnings of two rows are apart.
    width: usize,
}

impl<'a> Model for LentGrid<'a> {
    ghost Value = { GridView };

    ghost view = { λ g. let n = sizes.side g.size in record {
      size = g.size;
      modules =
          map (λ i. slice_index_or g.modules.now (i / n * g.width + i % n) false) (range_with_len 0 (n * n));
    } };

    ghost invariant = { λ g. (sizes.side g.size ≤ g.width) × (sizes.side g.size * g.width ≤ length g.modules.now) };
}

impl<'a> LentGrid<'a> {
    /// The grid whose rows begin this many modules after one another, at the first of those that are handed in.
    pub fn from_rows(size: Size, modules: &'a [bool], width: usize) -> LentGrid<'a>
        requires wide { sizes.side size ≤ width }
        requires high { sizes.side size * width ≤ length modules.now }
        ensures { let n = sizes.side size in result ≡ record {
          size = size;
          modules =
              map (λ i. slice_index_or modules.now (i / n * width + i % n) false) (range_with_len 0 (n * n));
        } }
    {
        LentGrid {
            size,
            modules,
            width,
        }
    }

    /// The size of the symbol.
    pub fn size(&self) -> Size
        ensures { result ≡ self.now.size }
    {
        self.size
    }

    /// The modules of a row, from 0, from left to right.
    pub fn row(&self, row: u16) -> &'a [bool]
        requires { row < sizes.side self.now.size }
        ensures modules { result.now ≡
            let side = sizes.side self.now.size in slice_range self.now.modules (row * side) ((row + 1) * side) }
        ensures count { length result.now ≡ sizes.side self.now.size }
        ensures whole { IsWholeGrid self.now }
    {
        let start = row as usize * self.width;
        &self.modules[start..start + self.size.side() as usize]
    }

    /// A copy, in memory of this allocator.
    ///
    /// # Errors
    /// Where the allocator refuses its memory.
    pub fn copy<A: Allocator>(&self, alloc: A) -> Result<Grid<A>, AllocError>
        ensures { IfOk result (λ grid. grid ≡ self.now) }
    {
        let side = self.size.side();
        let mut modules = Vec::with_capacity(alloc, side as usize * side as usize)?;
        for row in 0..side {
            modules.extend_from_slice(self.row(row))?;
        }
        Ok(Grid::from_modules(self.size, modules))
    }
}
