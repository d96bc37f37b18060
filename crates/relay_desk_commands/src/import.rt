//! `relay import`: pages from another desk.

ghost use Rattle.std.specs.Prelude.{◌≡◌, ℕ, List, MatchResult, [], false, length, map};
ghost use Rattle.dm_assembly_desk.specs.{Desk.import_fault_name, Documents.DeskIsInOrder, Documents.KeepsPages};
ghost use Rattle.relay_shared.specs.Command.{TellsAnswer, TellsRefusal};
ghost use Rattle.relay_streams.specs.Streams.{TakesPart};
ghost use Rattle.relay_desk_commands.specs.Desks.{EndsImport, HasNoDesk, ImportsFile, OpensDesk, desk_at, import_line};

use crate::desk_opening::{OpenDesk, open_desk};
use crate::lines::room_text;
use dm_assembly_desk::{Desk, ImportFault, Imported};
use dm_store::{Store, StoreSet};
use relay_shared::{
    EndedDesk, NamedFile, Refusal, Streams, greater, put_imported, refuse, status_after,
};
use relay_streams::{Input, Output};
use std::alloc::{AllocError, Allocator};
use std::io::{Read, Write};

/// One byte more than the greatest file of a document.
pub const IMPORT_BYTES: usize = 41_643;

// Writes the line of a desk's answer, which may rest on what was found there. Gives the exit status, and the name of the
// refusal, if it is one.
#[rattlefmt::skip] // a pattern a line
fn tell<T: StoreSet, W: Write>(
    _settled: &T::Settled, output: &mut Output<W>, answer: Result<Imported, ImportFault>,
) -> (u8, Option<&'static str>)
    ensures { TellsAnswer import_line import_fault_name answer output.old result.0 output.new }
{
    match answer {
        Ok(Imported { id, n, added, kind }) => (status_after(put_imported(output, id, n, added, kind.name())), None),
        Err(fault) => (refuse(output, fault.name()), Some(fault.name())),
    }
}

// What is noted of a refused file: the name of the refusal, and how many documents a full desk has room for.
fn why_refused<A: Allocator + Copy, T: StoreSet>(
    alloc: A,
    desk: &Desk<T, A>,
    name: &str,
) -> Result<String<A>, AllocError> {
    if name != ImportFault::Full.name() {
        return String::from_str(alloc, name);
    }
    let room = room_text(alloc, desk)?;
    format!(in alloc; "{name}{room}")
}

// Opens the desk, and settles what was found there; or writes the line `refused NAME`, and says how the command ends.
#[rattlefmt::skip] // a signature a line
fn open_settled<A: Allocator + Copy, S: Store, T: StoreSet, W: Write>(
    alloc: A, store: S, set: T, output: &mut Output<W>, capacity: u16,
) -> Result<(OpenDesk<S, T, A>, T::Settled), EndedDesk<S, T>>
    ensures { MatchResult result
        (λ opened. OpensDesk (record { joint = S.state store; set = T.state set }) capacity (S.state opened.0.store)
        opened.0.desk × (output.new ≡ output.old) × DeskIsInOrder opened.0.desk)
        (λ ended. (name : List ℕ) × HasNoDesk (record { joint = S.state store; set = T.state set }) capacity name
        (record { joint = S.state ended.store; set = T.state ended.set })
        × TellsRefusal name output.old ended.status output.new) }
{
    match open_desk(alloc, store, set, output, capacity)?.settle() {
        Ok(opened) => Ok(opened),
        Err(unopened) => Err(unopened.refuse(output)),
    }
}

// Takes in a file, whose bytes are read into this room, and writes the line of the answer.
#[rattlefmt::skip] // a signature a line
fn import_file<A: Allocator + Copy, T: StoreSet, F: NamedFile, W: Write>(
    alloc: A, settled: &T::Settled, desk: &mut Desk<T, A>, file: &F, room: &mut [u8], output: &mut Output<W>,
) -> u8
    requires running { desk.old.is_failed ≡ false }
    requires room { length room.old ≡ IMPORT_BYTES }
    ensures does { ImportsFile (F.known file.now) (desk.old, output.old) result (desk.new, output.new) }
    ensures kept { KeepsPages desk.old.held desk.new.held }
{
    let reader = match file.open() {
        Ok(reader) => reader,
        Err(fault) => return refuse(output, fault.name()),
    };
    let mut input = Input::new(reader);
    let (status, refused) = match input.fill(room) {
        Ok(count) => tell::<T, W>(settled, output, desk.import(&room[..count])),
        Err(fault) => (refuse(output, fault.name()), Some(fault.name())),
    };
    let why = match refused {
        Some(name) => why_refused(alloc, desk, name).ok(),
        None => None,
    };
    let noted = why.as_ref().map(|why| why.as_str());
    file.end(input.into_reader(), noted.or(refused));
    status
}

// Takes in a file from the input, which is read before the desk is opened.
#[rattlefmt::skip] // a signature a line
fn import_input<A: Allocator + Copy, S: Store, T: StoreSet, R: Read, W: Write, E: Write>(
    alloc: A, store: S, set: T, streams: &mut Streams<R, W, E>, capacity: u16,
) -> EndedDesk<S, T>
    ensures part { TakesPart streams.old.input.remaining streams.new.input.remaining IMPORT_BYTES }
    ensures ends { EndsImport capacity [] (desk_at (S.state store) (T.state set) streams.old)
        result.status (desk_at (S.state result.store) (T.state result.set) streams.new) }
{
    let bytes = match streams.input.read_up_to(alloc, IMPORT_BYTES) {
        Ok(bytes) => bytes,
        Err(fault) => return EndedDesk { status: refuse(&mut streams.output, fault.name()), store, set },
    };
    let output = &mut streams.output;
    let (OpenDesk { store, mut desk }, settled) = match open_settled(alloc, store, set, output, capacity) {
        Ok(opened) => opened,
        Err(ended) => return ended,
    };
    EndedDesk { status: tell::<T, W>(&settled, output, desk.import(&bytes)).0, store, set: desk.close() }
}

/// Reads files that `export` has written, at most 41,643 bytes of each, or one from the input where none is named. It
/// holds and saves their pages that were not held, and prints `IIII n added MASK KIND` for each: the ID, how many pages
/// the document has, which of them were added (bit m - 1 for page m), and whether it was `new`, `again` or `complete`;
/// or the line `refused NAME`. The input is read before the desk is opened, and files are read after that. A refused
/// file doesn't end the command; a save that failed does.
#[rattlefmt::skip] // a signature a line
pub fn import_command<A: Allocator + Copy, S: Store, T: StoreSet, F: NamedFile, R: Read, W: Write, E: Write>(
    alloc: A, store: S, set: T, files: &[F], streams: &mut Streams<R, W, E>, capacity: u16,
) -> EndedDesk<S, T>
    ensures part { TakesPart streams.old.input.remaining streams.new.input.remaining IMPORT_BYTES }
    ensures ends { EndsImport capacity (map F.known files.now) (desk_at (S.state store) (T.state set) streams.old)
        result.status (desk_at (S.state result.store) (T.state result.set) streams.new) }
{
    if files.is_empty() {
        return import_input(alloc, store, set, streams, capacity);
    }
    let output = &mut streams.output;
    let Ok(mut room) = vec![in alloc; 0u8; IMPORT_BYTES] else {
        return EndedDesk { status: refuse(output, Refusal::Memory.name()), store, set };
    };
    let (OpenDesk { store, mut desk }, settled) = match open_settled(alloc, store, set, output, capacity) {
        Ok(opened) => opened,
        Err(ended) => return ended,
    };
    let mut status = 0;
    for file in files {
        status = greater(status, import_file(alloc, &settled, &mut desk, file, &mut room, output));
        if output.has_failed() | desk.has_failed() {
            return EndedDesk { status, store, set: desk.close() };
        }
    }
    EndedDesk { status, store, set: desk.close() }
}
