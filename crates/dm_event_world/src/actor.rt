//! The printers and desks of a world, and what left them.

use dm_append_label::FileId;
use dm_assembly_desk::Desk;
use dm_event_history::Bytes;
use dm_finder_frame::Grid;
use dm_print_ledger::Printer;
use dm_store::{MemSet, MemStore};
use std::alloc::{Allocator, Global};

/// A printer that runs, or the store of one that is down.
#[derive(Drop)]
pub enum PrinterActor<A: Allocator + Copy = Global> {
    Running(Printer<MemStore<A>, A>),
    Down(MemStore<A>),
}

/// A label that has left a printer: label `number`, from 1, of the `count` labels of a document.
#[derive(Drop)]
pub struct LeftLabel<A: Allocator + Copy = Global> {
    pub id: FileId,
    pub number: u8,
    pub count: u8,
    pub grid: Grid<A>,
}

/// A desk that runs, or the set of one that is down.
#[derive(Drop)]
pub enum DeskState<A: Allocator + Copy = Global> {
    Running(Desk<MemSet<A>, A>),
    Down(MemSet<A>),
}

/// A desk with room for `capacity` documents.
#[derive(Drop)]
pub struct DeskActor<A: Allocator + Copy = Global> {
    pub capacity: u16,
    pub state: DeskState<A>,
}

/// An export that has left a desk: its document, of `count` pages, which of them it holds (bit m - 1 is set for page
/// m), and its bytes.
#[derive(Drop)]
pub struct LeftExport<A: Allocator + Copy = Global> {
    pub id: FileId,
    pub count: u8,
    pub mask: u16,
    pub bytes: Bytes<A>,
}
