//! Symbols and labels for programs in C: a static library whose functions take byte slices, each a pointer and then a
//! length in C. An image is drawn in PBM's packed form (`P4`), one pixel per module inside a quiet zone of one pixel,
//! and read in its plain form (`P1`) too. A text is drawn in ASCII encodation, and read in C40, Text and Base 256 too
//! (ISO/IEC 16022:2006, 5.2). The parameter `alloc` does not appear in the C signature.
//!
//! Proved: an image is exactly that of the one symbol, or label, that was asked for; a text or a page's bytes are those
//! of the one symbol within the limit of correction; a call refuses only for the reason that its answer names, and then
//! leaves the caller's bytes as they were.
#![tactic(auto)]

mod images;
mod labels;
mod refusal;
mod symbols;
#[cfg(test)]
mod tests;

pub use labels::{relay_label_from_text, relay_page_from_image};
pub use symbols::{relay_image_from_words, relay_symbol_from_text, relay_text_from_image};
