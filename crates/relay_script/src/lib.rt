//! Scripts of worlds: their lines become printers, desks and events.
//!
//! Proved: where a script is taken, its lines spell exactly the ranges, the desks and the events that come of it; where
//! UTF-8 is refused as no script, its lines spell none. Memory is refused only where they spell some, so that it hides
//! no fault of a script. Bytes that are not UTF-8 are no script by definition.
#![tactic(auto)]

mod event_lines;
pub mod laws;
mod script;
mod spelled;
mod words;

pub use script::{MOST_DESKS, MOST_EVENTS, MOST_PRINTERS, SCRIPT_BYTES, Script, read_script};
pub use words::ScriptFault;
