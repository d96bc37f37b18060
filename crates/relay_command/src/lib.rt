//! What the program can be asked to do, and the encodations by name.
//!
//! Proved: a name is taken for the encodation that has it, and refused where none has.
#![tactic(auto)]

mod command;
mod scheme;

pub use command::{Command, Labels};
pub use scheme::scheme_of;
