//! The program `relay`. [`System::run_line`] does what the words of a line say over standard streams and the files at
//! paths, which [`Places`] gives out, and answers the exit status; [`run`] calls it with the program's own words and
//! streams and the system's files. [`do_command`] does a command over its files and streams. Each command is also a
//! function of its own, and [`command_line`] gives the command of a line.
//!
//! Proved of a line, of [`System::run_line`]: which command its words give, and that they show something or are refused
//! exactly where they give none; that the command is done with the files at the path that it names, and every other
//! path is as it was; that all of its output is out where the status is 0; where it is saved; and that `export --all`
//! exports each document of which `held` writes a line.
//!
//! Proved, of inputs and outputs whose bytes a contract can name (slices and vectors; of the system's own streams none
//! can): on status 0 a command has written exactly what it is for: `read` and `scan` a line for each image, `world`
//! one for each event, `left` one for each fact of a ledger, `held` one for each document, `plan` one for each side,
//! `ticket` two, and `audit` none, since nothing is wrong. On status 1 an output has refused a write, or the command
//! has written the line of a refusal for which there was a reason, and nothing else, but for seven commands: `read`
//! and `scan` have answered to the images before, and go on to those after a refusal that is of one image alone; so
//! does `import` with the files that it is given; `world` goes on to the next event; `held` names the files that can't
//! be used among its lines; `audit` has a line for each thing that is wrong, or for each fault before it is refused
//! memory; and `print` may have written its line and images. What a command does to its store and its files is what the
//! call of the printer or of the desk says. `world` plays printers and desks in memory, and carries the headline.
#![tactic(auto)]

mod all;
mod closed_streams;
mod commands;
mod line;
mod named;
mod program;
mod standard;
mod system;

pub use commands::do_command;
pub use program::run;
pub use relay_command::Command;
pub use relay_desk_commands::{
    CopyOptions, copy_command, deliver_command, export_command, forget_command, held_command,
    held_long_command, import_command, scan_command,
};
pub use relay_line::{CommandLine, LineFault, command_line};
pub use relay_places::{Access, MemPlace, MemPlaces, Named, Places};
pub use relay_printer_commands::{
    Labels, audit_command, give_command, give_last_command, ledger_command, left_command,
    plan_command, print_command, take_command, ticket_command,
};
pub use relay_symbol_commands::{Form, draw_command, read_command, words_command};
pub use relay_world_command::world_command;
pub use standard::StandardStreams;
pub use system::System;
