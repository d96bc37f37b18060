//! Images of symbols in Netpbm's PBM: packed (`P4`) and plain (`P1`).
//!
//! [`Image::read`] reads one image from an [`Input`](relay_streams::Input), a packed raster row by row and all else one
//! byte at a time, and no byte past it, so that several images may follow one another; [`Image::write`] writes one to
//! an [`Output`](relay_streams::Output), row by row. [`read_image`] and [`write_image`] do the same over any reader and
//! writer, and [`image_in`] reads the image that bytes in memory begin with. [`image_of`] draws a grid inside its quiet
//! zone, [`grid_in`] lends the grid in an image, and [`grid_of`] takes it out. Where this project is more lenient than
//! Netpbm's manual pages, the definitions in `specs/` say so.
//!
//! Proved: the bytes taken spell the image that was read, and no other; each refusal comes exactly where the
//! definitions put it; what is written is the definition's text, and reads back as the image; `Image::read` answers
//! `Read`, and `Image::write` its fault, only where the input or the output has failed, and `image_in` never answers
//! `Read`; of an image that was not written whole a part went out from its first byte on, and nothing if a write had
//! failed before; the image of a grid is the definition's picture, and gives that grid back; `grid_of` refuses exactly
//! the images that have not the shape of a symbol. Only tested: that `read_image` and `write_image` answer those faults
//! only where the reader or the writer failed.
#![tactic(auto)]

mod fault;
mod header;
mod image;
pub mod laws;
mod limits;
mod packed;
mod raster;
mod sink;
mod source;
mod symbol_image;
mod write;

pub use fault::{PbmFault, ShapeFault};
pub use image::{Image, image_in, read_image};
pub use limits::{GREATEST_SIDE, HEADER_BYTES, PLAIN_BYTES};
pub use relay_streams::WriteFault;
pub use symbol_image::{grid_in, grid_of, image_of};
pub use write::write_image;
