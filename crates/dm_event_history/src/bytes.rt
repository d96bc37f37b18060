//! The bytes of documents.

ghost use Rattle.std.specs.Prelude.{◌≡◌, List, ℕ};

use std::alloc::{Allocator, Global};
use std::marker::Model;

/// The bytes of a document, as an event or a reply carries them.
#[derive(Drop)]
pub struct Bytes<A: Allocator = Global>(pub Vec<u8, A>);

impl<A: Allocator> Model for Bytes<A> {
    ghost Value = { List ℕ };

    ghost view = { λ b. b.0.items };
}

impl<A: Allocator> Bytes<A> {
    /// The bytes, lent.
    pub fn as_slice(&self) -> &[u8]
        ensures { result.now ≡ self.now }
    {
        self.0.as_slice()
    }
}
