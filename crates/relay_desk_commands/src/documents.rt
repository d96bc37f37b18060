//! The commands of one document of a desk, named by its ID: `relay deliver` gives it back, `relay export`
//! gives the pages that are held of it, for another desk, and `relay forget` lets it go.

ghost use Rattle.std.specs.Prelude.{◌≡◌, ◌⊎◌, ℕ, List, MatchResult, Ok, Err};
ghost use Rattle.dm_assembly_desk.specs.Desk.{forget_fault_name};
ghost use Rattle.relay_shared.specs.{Command.RefusesOnErrors, Command.TellsRefusal, Files.DeskFiles};
ghost use Rattle.relay_desk_commands.specs.Desks.{EndsDeliver, EndsExport, EndsForget, EndsGiving, HasNoDesk, IsNotToldNotHeld, IsUnopened, OpensDesk, Yields, desk_at};

use crate::desk_opening::{OpenDesk, id_of, open_desk};
use crate::lines::put_forgotten;
use dm_append_label::FileId;
use dm_assembly_desk::{AskFault, Desk, ExportFault, ForgetFault, MOST_CAPACITY};
use dm_store::{Store, StoreSet};
use relay_shared::{EndedDesk, Refusal, Streams, refuse, status_after, status_after_bytes};
use relay_streams::Output;
use std::alloc::Allocator;
use std::io::{Read, Write};

/// What is given out of a document.
#[derive(Clone, Copy, Debug, PartialEq, Eq)]
pub enum Given {
    /// The document itself.
    Document,
    /// The file of the pages that are held.
    File,
}

fn bytes_of<A: Allocator + Copy, T: StoreSet>(
    desk: &Desk<T, A>,
    id: FileId,
    given: Given,
) -> Result<Vec<u8, A>, &'static str>
    ensures { MatchResult result
        (λ bytes. Yields given id desk.now.held (Ok bytes.items))
        (λ name. Yields given id desk.now.held (Err name.now)) }
{
    match given {
        Given::Document => desk.document(id).map_err(AskFault::name),
        Given::File => desk.export(id).map_err(ExportFault::name),
    }
}

fn give_out<A: Allocator + Copy, S: Store, T: StoreSet, R: Read, W: Write, E: Write>(
    alloc: A,
    store: S,
    set: T,
    streams: &mut Streams<R, W, E>,
    text: &str,
    given: Given,
) -> EndedDesk<S, T>
    ensures ends { EndsGiving given text.now (desk_at (S.state store) (T.state set) streams.old) result.status
        (desk_at (S.state result.store) (T.state result.set) streams.new) }
    ensures settled { T.is_settled result.set ⊎ IsUnopened RefusesOnErrors text.now
        (desk_at (S.state store) (T.state set) streams.old) result.status
        (desk_at (S.state result.store) (T.state result.set) streams.new) }
{
    let Some(id) = id_of(text) else {
        let status = refuse(&mut streams.errors, Refusal::FileId.name());
        return EndedDesk { status, store, set };
    };
    let opened = match open_desk(alloc, store, set, &mut streams.errors, MOST_CAPACITY) {
        Ok(opened) => opened,
        Err(ended) => return ended,
    };
    let answer = bytes_of(&opened.desk, id, given);
    let closed = match opened.close() {
        Ok(closed) => closed,
        Err(unopened) => return unopened.refuse(&mut streams.errors),
    };
    let status = match answer {
        Ok(bytes) => {
            let put = streams.output.put(&bytes);
            status_after_bytes(&mut streams.errors, put)
        }
        Err(name) => refuse(&mut streams.errors, name),
    };
    closed.end(status)
}

/// Writes the document of an ID, whose two codewords the text has in hexadecimal, where each of its pages is
/// held, and nothing else. A refusal is a line on `errors`. The text is looked at before the files.
pub fn deliver_command<A: Allocator + Copy, S: Store, T: StoreSet, R: Read, W: Write, E: Write>(
    alloc: A,
    store: S,
    set: T,
    streams: &mut Streams<R, W, E>,
    text: &str,
) -> EndedDesk<S, T>
    ensures ends { EndsDeliver text.now (desk_at (S.state store) (T.state set) streams.old) result.status
        (desk_at (S.state result.store) (T.state result.set) streams.new) }
    // No stop takes back what it tells, unless that is of no desk.
    ensures settled { T.is_settled result.set ⊎ IsUnopened RefusesOnErrors text.now
        (desk_at (S.state store) (T.state set) streams.old) result.status
        (desk_at (S.state result.store) (T.state result.set) streams.new) }
{
    give_out(alloc, store, set, streams, text, Given::Document)
}

/// Writes the file of the pages that are held of a document, for `import` at another desk. A refusal is a line on
/// `errors`. The text, as for `deliver`, is looked at before the files.
pub fn export_command<A: Allocator + Copy, S: Store, T: StoreSet, R: Read, W: Write, E: Write>(
    alloc: A,
    store: S,
    set: T,
    streams: &mut Streams<R, W, E>,
    text: &str,
) -> EndedDesk<S, T>
    ensures ends { EndsExport text.now (desk_at (S.state store) (T.state set) streams.old) result.status
        (desk_at (S.state result.store) (T.state result.set) streams.new) }
    // No stop takes back what it tells, unless that is of no desk.
    ensures settled { T.is_settled result.set ⊎ IsUnopened RefusesOnErrors text.now
        (desk_at (S.state store) (T.state set) streams.old) result.status
        (desk_at (S.state result.store) (T.state result.set) streams.new) }
{
    give_out(alloc, store, set, streams, text, Given::File)
}

// Says that no page of a document is held, once what was found is settled; or why that can't be. A document that was held
// is forgotten by a save of its own, so its desk needs no settling.
fn refuse_not_held<A: Allocator + Copy, S: Store, T: StoreSet, W: Write>(
    opened: OpenDesk<S, T, A>,
    output: &mut Output<W>,
) -> EndedDesk<S, T>
    ensures { ((S.state result.store ≡ S.state opened.store) × (T.state result.set ≡ opened.desk.saved)
        × TellsRefusal (forget_fault_name ForgetFault.NotHeld) output.old result.status output.new
        × T.is_settled result.set)
        ⊎ ((name : List ℕ) × TellsRefusal name output.old result.status output.new
        × ((before : DeskFiles) (capacity : ℕ) → OpensDesk before capacity (S.state opened.store) opened.desk
        → HasNoDesk before capacity name (record { joint = S.state result.store; set = T.state result.set }))) }
{
    match opened.close() {
        Ok(closed) => closed.end(refuse(output, ForgetFault::NotHeld.name())),
        Err(unopened) => unopened.refuse(output),
    }
}

/// Lets a document go, and prints `forgotten IIII`, its ID, or the line `refused NAME`. The text, as for
/// `deliver`, is looked at before the files.
pub fn forget_command<A: Allocator + Copy, S: Store, T: StoreSet, R: Read, W: Write, E: Write>(
    alloc: A,
    store: S,
    set: T,
    streams: &mut Streams<R, W, E>,
    text: &str,
) -> EndedDesk<S, T>
    ensures ends { EndsForget text.now (desk_at (S.state store) (T.state set) streams.old) result.status
        (desk_at (S.state result.store) (T.state result.set) streams.new) }
    // No stop takes back that nothing is held of the document.
    ensures settled { T.is_settled result.set ⊎ IsNotToldNotHeld text.now
        (desk_at (S.state store) (T.state set) streams.old) result.status
        (desk_at (S.state result.store) (T.state result.set) streams.new) }
{
    let Some(id) = id_of(text) else {
        let status = refuse(&mut streams.output, Refusal::FileId.name());
        return EndedDesk { status, store, set };
    };
    let mut opened = match open_desk(alloc, store, set, &mut streams.output, MOST_CAPACITY) {
        Ok(opened) => opened,
        Err(ended) => return ended,
    };
    let status = match opened.desk.forget(id) {
        Ok(()) => status_after(put_forgotten(&mut streams.output, id)),
        Err(fault) => {
            if fault == ForgetFault::NotHeld {
                return refuse_not_held(opened, &mut streams.output);
            }
            refuse(&mut streams.output, fault.name())
        }
    };
    opened.end(status)
}
