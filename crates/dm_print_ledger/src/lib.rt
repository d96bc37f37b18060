//! Printers: each document gets an ID of its own, which no printer gives twice.
//!
//! [`Printer::create`] makes a printer over a store, and [`Printer::open`] goes on with what a store holds.
//! [`Printer::print`] makes the labels of a document as a [`Job`]. [`Printer::give`] hands a [`Range`] of free
//! IDs to another printer by a [`Ticket`], which that printer's [`Printer::take`] makes free there. One
//! for another printer is refused `Receiver`; one whose serial is not above the last taken from its giver is refused
//! `Old`. [`Shown::load`] says what a store holds of a printer, and only reads; two that are shown can be compared.
//!
//! Proved: each call says of every ID whether it is free afterwards. A job has exactly the labels of the
//! parts of its document, in order, under the least ID that was free. Over an honest store the change is
//! saved before a job or a ticket is given, so a printer that is opened again goes on with it. Each refusal is the
//! first that applies, and all but a failed save leave the printer and its store as they were. A sound ledger is read
//! back as it was saved, and all other bytes are refused by name.
#![tactic(auto)]

mod creating;
mod fault;
mod format;
mod free;
mod giver;
mod job;
pub mod laws;
mod ledger;
mod limits;
mod moving;
mod opening;
mod planning;
mod printer;
mod printing;
mod range;
mod shown;
mod ticket;

pub use creating::CreateRefused;
pub use fault::{CreateFault, GiveFault, OpenFault, PrintFault, TakeFault};
pub use giver::Giver;
pub use job::Job;
pub use limits::{GREATEST, MOST_BYTES, MOST_GIVERS, MOST_RANGES, TICKET_BYTES};
pub use opening::OpenRefused;
pub use planning::label_count;
pub use printer::Printer;
pub use range::{Range, is_range};
pub use shown::Shown;
pub use ticket::Ticket;
