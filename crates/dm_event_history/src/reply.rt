//! What is answered.

use crate::bytes::Bytes;
use dm_append_label::FileId;
use dm_assembly_desk::{
    Accepted, AskFault, DeskFault, ExportFault, ForgetFault, ImportFault, Imported, ScanFault,
};
use dm_print_ledger::{GiveFault, OpenFault, PrintFault, TakeFault, Ticket};
use std::alloc::{Allocator, Global};

/// The answer to an event.
#[rattlefmt::skip]
#[derive(Drop)]
pub enum Reply<A: Allocator = Global> {
    /// All labels of the document left; `first` is the number of the first of them, and `count` how many they are.
    Printed { id: FileId, first: usize, count: u8 },
    PrintRefused(PrintFault),
    /// The desk holds the page.
    Scanned(Accepted),
    ScanRefused(ScanFault),
    /// The document that was asked for.
    Document(Bytes<A>),
    AskRefused(AskFault),
    Forgotten,
    ForgetRefused(ForgetFault),
    /// The ticket left, under this number.
    Given { index: usize, ticket: Ticket },
    GiveRefused(GiveFault),
    Taken,
    TakeRefused(TakeFault),
    /// The export left, under this number. It has the pages of the document, of n, whose bits are set: m - 1 for page
    /// m.
    Exported { index: usize, id: FileId, n: u8, mask: u16 },
    ExportRefused(ExportFault),
    Imported(Imported),
    ImportRefused(ImportFault),
    Restarted,
    /// The printer was not opened again, and is down.
    PrinterRefused(OpenFault),
    /// The desk was not opened again, and is down.
    DeskRefused(DeskFault),
    /// The call was stopped, and the printer or the desk is down.
    Stopped,
    /// The printer or the desk is down.
    Down,
    /// The printer, the desk, the label, a module, the ticket or the export that is named is not there.
    NoSuch,
    /// Memory was refused, for the event itself or for a call that was to be stopped: nothing changed.
    Memory,
}
