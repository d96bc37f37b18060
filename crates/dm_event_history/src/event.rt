//! What happens.

use crate::bytes::Bytes;
use crate::flips::Flips;
use crate::stop::Stop;
use dm_append_label::FileId;
use dm_encodation::Scheme;
use dm_print_ledger::Range;
use dm_size::Size;
use std::alloc::{Allocator, Global};

/// One call on one printer or one desk. Printers, desks, labels, tickets and exports are named by their number, from 0;
/// labels, tickets and exports in the order in which they left.
#[rattlefmt::skip]
#[derive(Drop)]
pub enum Event<A: Allocator = Global> {
    /// A printer prints a document.
    Print { printer: usize, document: Bytes<A>, size: Size, scheme: Scheme, stop: Stop },
    /// A desk scans a label that left, with some modules flipped.
    Scan { desk: usize, label: usize, flips: Flips<A>, stop: Stop },
    /// A printer is closed, if it runs, and opened again.
    RestartPrinter { printer: usize },
    /// A desk is closed, if it runs, and opened again.
    RestartDesk { desk: usize },
    /// A desk is asked for a document.
    Ask { desk: usize, id: FileId },
    /// A desk is to forget a document.
    Forget { desk: usize, id: FileId, stop: Stop },
    /// A printer gives a range of its free numbers to a receiver, which need not be there.
    Give { printer: usize, receiver: u16, range: Range, stop: Stop },
    /// A printer takes a ticket that was given.
    Take { printer: usize, ticket: usize, stop: Stop },
    /// A desk exports the pages that it holds of a document.
    Export { desk: usize, id: FileId },
    /// A desk imports an export.
    Import { desk: usize, export: usize, stop: Stop },
}
