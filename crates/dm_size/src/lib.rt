//! The sizes of Data Matrix ECC 200 symbols, and squares of modules: ISO/IEC 16022:2006, 5.5. [`Size`] is one of the 23
//! square sizes 10 to 132; in each of them all blocks have one length, and side 144, where they have two, is left out.
//! [`Matrix`] holds the modules of a mapping matrix.
//!
//! Proved: each reader of a size gives what the standard's table says, and each of these values lies within its limits;
//! the readers of a matrix give its modules, and those that write to it change one module.
#![tactic(auto)]

mod matrix;
mod size;

pub use matrix::Matrix;
pub use size::Size;
