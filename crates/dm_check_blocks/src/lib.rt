//! The error correction codewords that complete a Data Matrix ECC 200 symbol: ISO/IEC 16022:2006, 5.7, Annexes A and E.
//! [`checks_of`] fills in the error correction codewords of one block, and [`complete`] gives all codewords of a
//! symbol, its blocks interleaved as [`block_word`] says; [`complete_in`] gives them in the caller's room, and
//! [`complete_blocks`] writes the error correction codewords of all blocks in place.
//!
//! Proved: the blocks of what `complete` gives are sound blocks, and no other list that begins with the message has
//! sound blocks; the same of `checks_of`.
#![tactic(auto)]

mod checks;
mod generator;
mod listed;
mod multiples;
mod symbol;

pub use checks::checks_of;
pub use generator::MOST_CHECKS;
pub use symbol::{block_word, complete, complete_blocks, complete_in};
