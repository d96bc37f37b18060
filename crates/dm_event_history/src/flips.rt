//! Flipped modules.

ghost use Rattle.std.specs.Prelude.{◌≡◌, List, ℕ};

use std::alloc::{Allocator, Global};
use std::marker::Model;

/// The modules, by row and column from 0, that are flipped in the scanned grid of a label, one after another: one that
/// is named twice is as it was.
#[derive(Drop)]
pub struct Flips<A: Allocator = Global>(pub Vec<(u16, u16), A>);

impl<A: Allocator> Model for Flips<A> {
    ghost Value = { List (ℕ × ℕ) };

    ghost view = { λ f. f.0.items };
}

impl<A: Allocator> Flips<A> {
    /// The modules, lent.
    pub fn as_slice(&self) -> &[(u16, u16)]
        ensures { result.now ≡ self.now }
    {
        self.0.as_slice()
    }
}
