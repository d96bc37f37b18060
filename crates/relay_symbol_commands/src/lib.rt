//! The commands of symbols: `words` and `draw` make the symbol of a document, and `read` reads symbols from images.
//!
//! Proved: on status 0 the codewords, or the image, of the one symbol that carries the document were written, or for
//! each image the line of what its symbol carries. On status 1 there is the line of a refusal for which there was a
//! reason, or an output has failed: then a part of what was to be written is out, from its first byte on, and nothing
//! else.
#![tactic(auto)]

mod document_symbol;
mod read;
mod refusal;

pub use document_symbol::{Form, draw_command, words_command};
pub use read::read_command;
pub use refusal::{ReadRefusal, SymbolRefusal};
