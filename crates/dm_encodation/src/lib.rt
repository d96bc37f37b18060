//! The encodations of Data Matrix ECC 200 (ISO/IEC 16022:2006, 5.2 and Annex B): from bytes to
//! the data codewords of a symbol, and back.
//!
//! [`need`] and [`fit`] say how many codewords a text takes and how much of it fits a room, and
//! [`encode`] writes it after a head and fills the symbol with pads. Where the standard leaves a
//! choice, which codewords are written is this project's own rule. [`decode`] reads the codewords of ASCII,
//! C40, Text and Base 256, and says of all other words where and why they are refused; [`decode_to_slice`] reads them
//! into room of the caller's.
//!
//! Proved: `encode` writes exactly the codewords of the definition, and they read as the bytes that
//! went in and as nothing else; `need`, `fit` and the refusal `TooLong` are exact; `decode` gives
//! the one reading of the codewords, or the one fault at which they are stuck, and `Memory` only where
//! they have no fault. `need`, `fit` and `decode_to_slice` take no memory.
//!
//! The way down: `counter` counts the codewords of a text byte by byte (`counting` runs it), `encoding`
//! writes the text by `ascii`, `run` (C40 and Text, by the values of `characters`) or `base256`, and
//! `pads` fills the rest. The way back: `decoding` runs `reader`, which takes one codeword after another
//! in a `mode`; `values` reads the pairs of a run.
#![tactic(auto)]

mod ascii;
mod base256;
mod characters;
mod counter;
mod counting;
mod decoding;
mod encoding;
mod fault;
mod letters;
mod mode;
mod pads;
mod reader;
mod run;
mod scheme;
mod values;

pub use counting::{fit, need};
pub use decoding::{decode, decode_to_slice};
pub use encoding::encode;
pub use fault::{DecodeFault, EncodeFault};
pub use scheme::Scheme;
