//! The commands of printers: `ledger` makes a ledger, `print` prints labels, `give` and `take` move IDs;
//! `left` says what a ledger holds, `audit` what is wrong between ledgers and tickets, `plan` how many labels of each
//! side a document has, `ticket` what a ticket is.
//!
//! Proved: `ledger` creates the printer, where the store holds nothing; `print`, `give` and `take` open the printer
//! whose ledger the store holds, do the printer's call, write the line of its answer, and leave the store as the call
//! left it. `print` writes the labels of the job, in order, after that line; a side that it chooses is the smallest of
//! which the document has few enough labels. `left` opens no printer: it writes the lines of what the store holds, and
//! leaves the store as it was. `audit` is silent exactly where what it is given breaks nothing. `plan` writes the line
//! of each side of which the document has labels, and of no other. `ticket` and `take` take the same texts: the bare
//! digits of a ticket, and the check form, which has two error correction codewords, so that one or two wrong bytes of
//! it are found. A stream that a command doesn't need it leaves as it was.
#![tactic(auto)]

mod audit;
pub mod laws;
mod ledger;
mod left;
mod lines;
mod plan;
mod print;
mod tickets;

pub use audit::{TICKETS_BYTES, audit_command};
pub use ledger::{give_command, give_last_command, ledger_command};
pub use left::left_command;
pub use lines::PlannedSide;
pub use plan::plan_command;
pub use print::print_command;
pub use relay_command::Labels;
pub use tickets::{take_command, ticket_command};
