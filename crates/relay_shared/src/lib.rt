//! What the commands of `relay` share: how a command ends, the document and the images that it reads, the loops over
//! these images, refusals, notes of refused images, and lines that commands of several crates write.
//!
//! Proved: which bytes of an input are the document, and when there is none; where the images on an input end, and
//! those of each file; that a line is written whole, in the words of its definition, or that the output has failed and
//! a part of the line is out.
#![tactic(auto)]

mod command;
mod cure;
mod images;
pub mod laws;
mod lines;

pub use command::{
    DOCUMENT_BYTES, Ended, EndedDesk, Refusal, Streams, read_document, refuse, status_after,
    status_after_bytes,
};
pub use cure::{note_ending, put_image_note};
pub use images::{Answered, DONE, MOST_IMAGES, NamedFile, OnImages, REFUSED, each_input, greater};
pub use lines::{id_digits, put_accepted, put_imported, word_digits};
