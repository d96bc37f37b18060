//! Events at one desk.
//!
//! A call that is stopped before its save is not made. Any other is made, the next save's plan being that of the stop;
//! and if it is to end before its reply the desk is down then, over its set, unless the call's own memory was refused.

ghost use Rattle.std.specs.Prelude.{◌≡◌, ℕ, [], All, length, Err};
ghost use Rattle.dm_finder_frame.specs.Frame.{IsInGrid, flipped};
ghost use Rattle.dm_assembly_desk.specs.Documents.{IsEntry, file};
ghost use Rattle.dm_event_history.specs.declared.reply.Reply.TheVariants.{DeskRefused as desk_refused};
ghost use Rattle.dm_event_history.specs.Steps.{Calls, Looks, MayLackFirst, Restarts, AskTells, ExportTells, ForgetComes, ImportComes, ScanComes, forget_faults, forget_reply, import_faults, import_reply, scan_faults, scan_reply};
ghost use Rattle.dm_event_history.specs.Relay.{Export};
ghost use Rattle.dm_event_world.specs.Shows.{ShowsDesk};
ghost use Rattle.dm_event_world.specs.inner.Calls.{IsMadeUnder, EndsEach, Left, state_after, ended_reply};
ghost use Rattle.dm_event_world.specs.inner.Desks.{Calling, down_desk, desk_planned, desk_saved};
ghost use Rattle.dm_assembly_desk.specs.Desk.{AcceptsGrid, Forgets, ImportsBytes};
ghost use Rattle.dm_assembly_desk.specs.declared.fault.ScanFault.TheVariants.{Failed as scan_failed};
ghost use Rattle.dm_assembly_desk.specs.declared.fault.ForgetFault.TheVariants.{Failed as forget_failed};
ghost use Rattle.dm_assembly_desk.specs.declared.fault.ImportFault.TheVariants.{Failed as import_failed};

use crate::actor::{DeskState, LeftExport};
use crate::call::{is_stopped_before, is_stopping, lacks_memory, next_save};
use dm_append_label::FileId;
use dm_assembly_desk::{
    Accepted, Desk, DeskFault, DeskRefused, ExportFault, ForgetFault, ImportFault, Imported,
    ScanFault,
};
use dm_event_history::{Bytes, Reply, Stop};
use dm_finder_frame::Grid;
use dm_store::{MemSet, NextSave};
use std::alloc::Allocator;
use std::mem;

// ---- down and up

// The set of a desk, which is closed if it runs.
fn set_of<A: Allocator + Copy>(state: DeskState<A>) -> MemSet<A>
    ensures { result ≡ desk_saved state }
{
    match state {
        DeskState::Running(desk) => desk.close(),
        DeskState::Down(set) => set,
    }
}

// Takes a desk down, over its set. It takes no memory.
fn take_down<A: Allocator + Copy>(alloc: A, state: &mut DeskState<A>)
    ensures { state.new ≡ down_desk state.old }
{
    let set = set_of(mem::replace(state, DeskState::Down(MemSet::new(alloc))));
    *state = DeskState::Down(set);
}

// Ends a call that was made and is answered so: under a stop the desk is down, unless the call lacked memory.
fn end<A: Allocator + Copy>(
    alloc: A,
    state: &mut DeskState<A>,
    stop: Stop,
    reply: Reply<A>,
) -> Reply<A>
    ensures told { result ≡ ended_reply stop reply }
    ensures ended { state.new ≡ state_after down_desk stop reply state.old }
{
    if !is_stopping(stop) {
        return reply;
    }
    if lacks_memory(&reply) {
        return Reply::Memory;
    }
    take_down(alloc, state);
    Reply::Stopped
}

/// A desk, with room for `capacity` documents, is closed, if it runs, and opened again. If it is not opened it is down.
pub(crate) fn restart<A: Allocator + Copy>(
    alloc: A,
    capacity: u16,
    state: &mut DeskState<A>,
) -> Reply<A>
    ensures ends { EndsEach (ShowsDesk capacity) (Restarts (desk_refused DeskFault.Memory))
        (λ goods. Left {A = A} [] [] [] goods [] [] []) state.old result state.new }
{
    let set = set_of(mem::replace(state, DeskState::Down(MemSet::new(alloc))));
    match Desk::open(alloc, set, capacity) {
        Ok(desk) => {
            *state = DeskState::Running(desk);
            Reply::Restarted
        }
        Err(DeskRefused { fault, store }) => {
            *state = DeskState::Down(store);
            Reply::DeskRefused(fault)
        }
    }
}

// ---- scans

// Scans a grid under the plan of a stop.
fn accept_under<A: Allocator + Copy>(
    desk: &mut Desk<MemSet<A>, A>,
    grid: &Grid<A>,
    stop: Stop,
) -> Result<Accepted, ScanFault>
    ensures { IsMadeUnder desk_planned stop (Calling (Err scan_failed) (AcceptsGrid grid.now))
        desk.old result desk.new }
{
    desk.set_next(next_save(stop));
    let answer = desk.accept(grid);
    desk.set_next(NextSave::Fine);
    answer
}

// What is answered to a scan.
fn tell_scan<A: Allocator + Copy>(answer: Result<Accepted, ScanFault>) -> Reply<A>
    ensures { result ≡ scan_reply answer }
{
    match answer {
        Ok(accepted) => Reply::Scanned(accepted),
        Err(fault) => Reply::ScanRefused(fault),
    }
}

/// A desk scans a label's grid with these modules flipped. Memory for the flipped grid is asked for first; without it
/// nothing changes.
pub(crate) fn scan<A: Allocator + Copy>(
    alloc: A,
    state: &mut DeskState<A>,
    grid: &Grid<A>,
    flips: &[(u16, u16)],
    stop: Stop,
) -> Reply<A>
    requires within { All (IsInGrid grid.now) flips.now }
    ensures ends { (capacity : ℕ) → EndsEach (ShowsDesk capacity)
        (MayLackFirst (Calls scan_faults stop (ScanComes capacity (flipped grid.now flips.now))))
        (λ goods. Left {A = A} [] [] [] goods [] [] []) state.old result state.new }
{
    let DeskState::Running(desk) = state else {
        return Reply::Down;
    };
    let Ok(scanned) = grid.with_flips(alloc, flips) else {
        return Reply::Memory;
    };
    if is_stopped_before(stop) {
        take_down(alloc, state);
        return Reply::Stopped;
    }
    let answer = accept_under(desk, &scanned, stop);
    end(alloc, state, stop, tell_scan(answer))
}

// ---- forgets

// Lets a document go under the plan of a stop.
fn forget_under<A: Allocator + Copy>(
    desk: &mut Desk<MemSet<A>, A>,
    id: FileId,
    stop: Stop,
) -> Result<(), ForgetFault>
    ensures { IsMadeUnder desk_planned stop (Calling (Err forget_failed) (Forgets id)) desk.old result desk.new }
{
    desk.set_next(next_save(stop));
    let answer = desk.forget(id);
    desk.set_next(NextSave::Fine);
    answer
}

// What is answered to a forget.
fn tell_forget<A: Allocator + Copy>(answer: Result<(), ForgetFault>) -> Reply<A>
    ensures { result ≡ forget_reply answer }
{
    match answer {
        Ok(()) => Reply::Forgotten,
        Err(fault) => Reply::ForgetRefused(fault),
    }
}

/// A desk is to forget a document.
pub(crate) fn forget<A: Allocator + Copy>(
    alloc: A,
    state: &mut DeskState<A>,
    id: FileId,
    stop: Stop,
) -> Reply<A>
    ensures ends { (capacity : ℕ) → EndsEach (ShowsDesk capacity) (Calls forget_faults stop (ForgetComes id))
        (λ goods. Left {A = A} [] [] [] goods [] [] []) state.old result state.new }
{
    let DeskState::Running(desk) = state else {
        return Reply::Down;
    };
    if is_stopped_before(stop) {
        take_down(alloc, state);
        return Reply::Stopped;
    }
    let answer = forget_under(desk, id, stop);
    end(alloc, state, stop, tell_forget(answer))
}

// ---- imports

// Imports a file under the plan of a stop.
fn import_under<A: Allocator + Copy>(
    desk: &mut Desk<MemSet<A>, A>,
    bytes: &[u8],
    stop: Stop,
) -> Result<Imported, ImportFault>
    ensures { IsMadeUnder desk_planned stop (Calling (Err import_failed) (ImportsBytes bytes.now))
        desk.old result desk.new }
{
    desk.set_next(next_save(stop));
    let answer = desk.import(bytes);
    desk.set_next(NextSave::Fine);
    answer
}

// What is answered to an import.
fn tell_import<A: Allocator + Copy>(answer: Result<Imported, ImportFault>) -> Reply<A>
    ensures { result ≡ import_reply answer }
{
    match answer {
        Ok(imported) => Reply::Imported(imported),
        Err(fault) => Reply::ImportRefused(fault),
    }
}

/// A desk imports an export, of these bytes.
pub(crate) fn import<A: Allocator + Copy>(
    alloc: A,
    state: &mut DeskState<A>,
    bytes: &[u8],
    stop: Stop,
) -> Reply<A>
    ensures ends { (export : Export) → IsEntry export.id export.pages → bytes.now ≡ file export.id export.pages →
        (capacity : ℕ) → EndsEach (ShowsDesk capacity) (Calls import_faults stop (ImportComes capacity export))
        (λ goods. Left {A = A} [] [] [] goods [] [] []) state.old result state.new }
{
    let DeskState::Running(desk) = state else {
        return Reply::Down;
    };
    if is_stopped_before(stop) {
        take_down(alloc, state);
        return Reply::Stopped;
    }
    let answer = import_under(desk, bytes, stop);
    end(alloc, state, stop, tell_import(answer))
}

// ---- asks and exports

/// A desk is asked for a document.
pub(crate) fn ask<A: Allocator + Copy>(state: &DeskState<A>, id: FileId) -> Reply<A>
    ensures ends { (capacity : ℕ) → EndsEach (ShowsDesk capacity) (Looks (AskTells id))
        (λ goods. Left {A = A} [] [] [] goods [] [] []) state.now result state.now }
{
    let DeskState::Running(desk) = state else {
        return Reply::Down;
    };
    match desk.document(id) {
        Ok(bytes) => Reply::Document(Bytes(bytes)),
        Err(fault) => Reply::AskRefused(fault),
    }
}

/// A desk exports the pages that it holds of a document, and the export leaves after all others. Memory for it among
/// them is asked for first; without it nothing changes.
pub(crate) fn export<A: Allocator + Copy>(
    state: &DeskState<A>,
    exports: &mut Vec<LeftExport<A>, A>,
    id: FileId,
) -> Reply<A>
    ensures ends { (capacity : ℕ) → EndsEach (ShowsDesk capacity)
        (MayLackFirst (Looks (ExportTells (length exports.old.items) id)))
        (λ goods. Left [] [] exports.old.items goods [] [] exports.new.items) state.now result state.now }
{
    let DeskState::Running(desk) = state else {
        return Reply::Down;
    };
    if exports.reserve(1).is_err() {
        return Reply::Memory;
    }
    let Some(pages) = desk.pages(id) else {
        return Reply::ExportRefused(ExportFault::NotHeld);
    };
    let bytes = match desk.export(id) {
        Ok(bytes) => Bytes(bytes),
        Err(fault) => return Reply::ExportRefused(fault),
    };
    let index = exports.len();
    let n = pages.n();
    let mask = pages.mask();
    exports.push_reserved(LeftExport {
        id,
        count: n,
        mask,
        bytes,
    });
    Reply::Exported { index, id, n, mask }
}
