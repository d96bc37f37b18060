//! Finder patterns of ECC 200 symbols: the frame round each data region, and the whole symbol as a grid of modules
//! (ISO/IEC 16022:2006, 5.5 and 5.8).
//!
//! `frame` cuts a mapping matrix into its data regions and puts the finder pattern round each. `wrong_modules` counts
//! the wrong modules of a grid's finder patterns, and refuses a grid with too many of them; `modules_of` gives the
//! mapping matrix inside them. `unframe` does both, and keeps the matrix.
//!
//! Proved: `frame` gives the grid of `specs/Frame.antt` exactly; `wrong_modules` and `unframe` refuse a grid exactly
//! where more than an eighth of the finder patterns' modules are wrong; `modules_of` and `unframe` give the mapping
//! matrix, and so undo `frame`.
#![tactic(auto)]

mod fault;
mod framing;
mod grid;
pub mod laws;
mod region;
mod unframing;

pub use fault::{FrameFault, GridFault, WrongFrame};
pub use framing::frame;
pub use grid::{Grid, LentGrid};
pub use region::cell_of;
pub use unframing::{Framed, MOST_MODULES, modules_in, modules_of, unframe, wrong_modules};
