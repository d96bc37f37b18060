//! The command line of `relay`: its words become a `Command`, or a fault with the text to show.
//!
//! Proved: `command_line` gives the command of the words by a table of all commands, each field with what the parser
//! finds for its option there; and, memory aside, it refuses exactly the lines that the parser's rules or those of this
//! crate refuse, and those that only show something, with status 0 for what was asked for and 2 for what is wrong. Not
//! proved: texts of helps and refusals, and which names `explain` and `help` know; tests show them. Trusted: what the
//! parser's crate says of it.
#![tactic(auto)]

mod check;
mod command;
mod explain;
mod explanations;
mod fault;
mod help;
mod line;
mod message;
mod options;
mod parse;
mod said;

pub use fault::LineFault;
pub use line::CommandLine;
pub use parse::command_line;
