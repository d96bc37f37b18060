//! Pages.

ghost use Rattle.std.specs.Prelude.{◌≤◌, ◌≡◌, IfSome, IsSome, ◌↔◌};
ghost use Rattle.dm_append_label.specs.Labels.{PageView};

use crate::file_id::FileId;
use std::alloc::{Allocator, Global};
use std::marker::Model;

/// Page m of the n pages of a document, with its bytes.
#[derive(Drop)]
pub struct Page<A: Allocator = Global> {
    id: FileId,
    m: u8,
    n: u8,
    bytes: Vec<u8, A>,
}

impl<A: Allocator> Model for Page<A> {
    ghost Value = { PageView };

    ghost view = { λ p. record { id = p.id; m = p.m; n = p.n; bytes = p.bytes.items } };

    ghost invariant = { λ p. (2 ≤ p.n) × (p.n ≤ 16) × (1 ≤ p.m) × (p.m ≤ p.n) };
}

impl<A: Allocator> Page<A> {
    /// A page, where 2 <= n <= 16 and 1 <= m <= n.
    pub fn new(id: FileId, m: u8, n: u8, bytes: Vec<u8, A>) -> Option<Page<A>>
        ensures some { IsSome result ↔ ((2 ≤ n) × (n ≤ 16) × (1 ≤ m) × (m ≤ n)) }
        ensures page { IfSome result (λ p. p ≡ record { id = id; m = m; n = n; bytes = bytes.items }) }
    {
        if n < 2 || 16 < n || m < 1 || n < m {
            return None;
        }
        Some(Page { id, m, n, bytes })
    }

    /// The ID of its document.
    pub fn id(&self) -> FileId
        ensures { result ≡ self.now.id }
    {
        self.id
    }

    /// Which page it is, from 1.
    pub fn m(&self) -> u8
        ensures same { result ≡ self.now.m }
        ensures first { 1 ≤ result }
        ensures last { result ≤ self.now.n }
    {
        self.m
    }

    /// How many pages its document has, 2 to 16.
    pub fn n(&self) -> u8
        ensures same { result ≡ self.now.n }
        ensures least { 2 ≤ result }
        ensures most { result ≤ 16 }
    {
        self.n
    }

    /// Its bytes.
    pub fn bytes(&self) -> &[u8]
        ensures { result.now ≡ self.now.bytes }
    {
        self.bytes.as_slice()
    }
}
