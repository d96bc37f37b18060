//! The command `world`, which plays printers and desks by a script, in memory.
//!
//! Proved: the line of each answer is written, in order, of the events that the script spells; no ID was
//! printed twice; and whatever document a clean desk gives is the one printed under its ID, as the headline
//! says.
#![tactic(auto)]

pub mod laws;
mod reply_lines;
mod world;

pub use world::{INPUT_BYTES, world_command};
