//! The field of 256 elements over which Data Matrix ECC 200 computes its error correction codewords: polynomials over
//! two elements modulo x^8 + x^5 + x^3 + x^2 + 1, with 2 as the primitive element (ISO/IEC 16022:2006, Annex E).
//!
//! Proved: each operation gives what the definition in `specs/Field.antt` says, though it works by tables; the
//! laws of the field; and that two sound blocks that differ in few places are equal.
#![tactic(auto)]

mod element;
pub mod laws;
mod multiple;
mod powers;

pub use element::Gf;
pub use multiple::add_multiple;
