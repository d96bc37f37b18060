//! Squares of modules.

ghost use Rattle.std.specs.Prelude.{◌≡◌, ◌<◌, ◌≤◌, ◌+◌, ◌*◌, IfOk, false, get_or, length, set, slice_range};
ghost use Rattle.dm_size.specs.Sizes.{mapping};
ghost use Rattle.dm_size.specs.Squares.{Square, IsWhole, module_at, light_square, with_module};

use crate::size::Size;
use std::alloc::{AllocError, Allocator, Global};
use std::marker::Model;

/// The modules of a mapping matrix, dark or light.
#[derive(Drop)]
pub struct Matrix<A: Allocator = Global> {
    side: u16,
    modules: Vec<bool, A>,
}

impl<A: Allocator> Model for Matrix<A> {
    ghost Value = { Square };

    ghost view = { λ m. record { side = m.side; modules = m.modules.items } };

    ghost invariant = { λ m. (length m.modules.items ≡ m.side * m.side) × (m.side ≤ 120) };
}

impl<A: Allocator> Matrix<A> {
    /// A square of light modules, at most 120 along a side.
    ///
    /// # Errors
    /// Where the allocator refuses its memory.
    pub fn light(alloc: A, side: u16) -> Result<Matrix<A>, AllocError>
        requires { side ≤ 120 }
        ensures { IfOk result (λ m. m ≡ light_square side) }
    {
        let modules = vec![in alloc; false; side as usize * side as usize]?;
        Ok(Matrix { side, modules })
    }

    /// Modules along a side.
    pub fn side(&self) -> u16
        ensures value { result ≡ self.now.side }
        ensures whole { IsWhole self.now }
        ensures small { self.now.side ≤ 120 }
    {
        self.side
    }

    /// Whether the module of a row and a column, both from 0, is dark.
    pub fn module(&self, row: u16, column: u16) -> bool
        requires row_in { row < self.now.side }
        requires column_in { column < self.now.side }
        ensures { result ≡ module_at self.now row column }
    {
        self.modules[self.index(row, column)]
    }

    /// The matrix of a size and its modules, row by row from the top left; `true` is a dark module. It keeps the
    /// modules as they are handed in, and takes no memory.
    pub fn from_modules(size: Size, modules: Vec<bool, A>) -> Matrix<A>
        requires { length modules.items ≡ mapping size * mapping size }
        ensures { result ≡ record { side = mapping size; modules = modules.items } }
    {
        Matrix {
            side: size.mapping(),
            modules,
        }
    }

    /// The modules of a row, from 0, from left to right.
    pub fn row(&self, row: u16) -> &[bool]
        requires { row < self.now.side }
        ensures modules { result.now ≡
            slice_range self.now.modules (row * self.now.side) ((row + 1) * self.now.side) }
        ensures whole { IsWhole self.now }
    {
        let side = self.side as usize;
        let start = row as usize * side;
        &self.modules[start..start + side]
    }

    // Where the module of a row and a column stands, row by row.
    #[inline(always)]
    fn index(&self, row: u16, column: u16) -> usize
        requires row_in { row < self.now.side }
        requires column_in { column < self.now.side }
        ensures value { result ≡ row * self.now.side + column }
        ensures within { result < self.now.side * self.now.side }
    {
        row as usize * self.side as usize + column as usize
    }

    /// Its modules, row by row; `true` is a dark one.
    pub fn modules(&self) -> &[bool]
        ensures modules { result.now ≡ self.now.modules }
        ensures whole { IsWhole self.now }
    {
        self.modules.as_slice()
    }

    /// Makes the module at a place, row by row, dark or light.
    #[inline(always)]
    pub fn make(&mut self, place: usize, dark: bool)
        requires { place < self.old.side * self.old.side }
        ensures { self.new ≡ record { side = self.old.side; modules = set self.old.modules place dark } }
    {
        self.modules[place] = dark;
    }

    /// Makes the module of a row and a column, both from 0, dark or light.
    pub fn set(&mut self, row: u16, column: u16, dark: bool)
        requires row_in { row < self.old.side }
        requires column_in { column < self.old.side }
        ensures { self.new ≡ with_module self.old row column dark }
    {
        self.make(self.index(row, column), dark);
    }
}
