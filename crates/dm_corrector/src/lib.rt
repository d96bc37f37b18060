//! Correction of the codewords of a Data Matrix ECC 200 symbol: Reed-Solomon decoding of its interleaved blocks, up to
//! half as many wrong codewords in each block as it has error correction codewords (ISO/IEC 16022:2006, 5.7 and Annex
//! E).
//!
//! Proved: with c error correction codewords, a block is corrected exactly when some sound block differs from it in at
//! most c / 2 places; the result is that sound block, and there is only one, whichever `Locate` finds the error locator
//! polynomial. Otherwise nothing changes. The same holds of a whole symbol, and for a symbol that cannot be corrected
//! the first faulty block is named. No call takes memory.
//!
//! The way of a block: its data codewords are completed anew, and by how much its error correction codewords differ
//! from the new ones is its remainder by the generator polynomial. That is zero exactly if the block is a sound block,
//! and it has the block's `syndromes`. For another block these give a locator polynomial, by `massey` or `elimination`,
//! then its `roots` and the `error_values` at them, and `block` corrects a copy, which counts only if it is a sound
//! block. `symbol` completes all blocks and corrects one after another. Syndromes and roots both come from `values` of
//! polynomials at successive powers of 2.
#![tactic(auto)]

mod block;
mod elements;
mod elimination;
mod error_values;
mod locate;
mod massey;
mod roots;
mod symbol;
mod syndromes;
mod values;

pub use block::{Uncorrectable, correct, correct_with};
pub use elimination::Elimination;
pub use locate::{Locate, MOST_COEFFICIENTS};
pub use massey::{Massey, shortest_recurrence};
pub use symbol::{BlockFault, correct_symbol};
pub use syndromes::{MOST_BLOCK_WORDS, syndromes_of};
