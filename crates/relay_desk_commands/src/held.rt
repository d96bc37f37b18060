//! `relay held`: what the files of a desk hold, told without a desk.

ghost use Rattle.std.specs.Prelude.{◌≡◌, ◌⊎◌, ◌+◌, ◌++◌, ◌<◌, ◌≤◌, [], false, Option, None, Some, IfOk, IfSome, IsTrue, List, ℕ};
ghost use Rattle.std.specs.FinMap as map;
ghost use Rattle.std.specs.Option.{option_copied};
ghost use Rattle.dm_store.specs.Saved.{Loads, Saved, SavedSet};
ghost use Rattle.dm_assembly_desk.specs.Desk.{IsFirstFrom};
ghost use Rattle.relay_streams.specs.Streams.{OutputView};
ghost use Rattle.relay_shared.specs.Command.{PutsText, RefusesOnOutput, refusal_name};
ghost use Rattle.relay_desk_commands.specs.Desks.{desk_at, EndsHeld, EndsHeldOf, IsUnsettledHeld, SeenJoint, SeesJoint, SeesNumber, TellsHeld, documents_in, joint_line, seen_line};
ghost use Rattle.relay_desk_commands.specs.inner.Gathered.{GathersHeld};

use crate::desk_opening::id_of;
use crate::lines::{put_held, put_unsound, put_unsound_joint};
use dm_append_label::FileId;
use dm_assembly_desk::{
    AskFault, DeskFault, Held, JointFile, MOST_JOINT_FILE_BYTES, MoveFault, held_at, is_listed,
};
use dm_store::{Store, StoreFault, StoreSet, load_settled};
use relay_shared::{EndedDesk, Refusal, Streams, refuse, status_after};
use relay_streams::{Output, WriteFault};
use std::alloc::Allocator;
use std::io::{Read, Write};

// What was read of the file of an older version: its documents, if there is one, or why it is not sound.
type SeenJoint<'a> = Result<Option<JointFile<'a>>, MoveFault>;

// What the file of an older version is, by what was loaded of it: its bytes, or of a file that is too long the first of
// them, one more than the greatest has.
fn joint_in<A: Allocator>(loaded: &Result<Option<Vec<u8, A>>, StoreFault>) -> SeenJoint<'_>
    ensures { (saved after : Saved) → Loads (λ bytes. bytes.items) saved MOST_JOINT_FILE_BYTES loaded.entry.now after
        → SeesJoint saved result }
{
    match loaded {
        Ok(found) => match found {
            Some(bytes) => Ok(Some(JointFile::read(bytes)?)),
            None => Ok(None),
        },
        Err(fault) => Err(MoveFault::from(*fault)),
    }
}

// What is held of the first document in the file of an older version from a number on.
#[tactic(auto, using(crate::proofs::LoadedJoint::none_held))]
fn first_from(joint: &SeenJoint<'_>, number: u32) -> Option<Held>
    ensures first { IsFirstFrom (documents_in joint.now) number result }
    ensures count { IfSome result (λ held. held.n ≤ 16) }
{
    match joint {
        Ok(Some(documents)) => documents.first_from(number),
        Ok(None) => None,
        Err(_) => None,
    }
}

// What is seen of the document of a number. `first` is what the file of an older version holds of the first document
// from the number on; a key that isn't there has no file.
fn seen_at<T: StoreSet>(
    set: &mut T,
    is_there: bool,
    first: Option<Held>,
    number: u16,
) -> Result<Option<Held>, DeskFault>
    requires absent { is_there ≡ false → IsTrue (T.state set.old).is_honest
        → map.get (T.state set.old).content number ≡ None }
    requires count { IfSome first (λ held. held.n ≤ 16) }
    ensures same { T.state set.new ≡ T.state set.old }
    ensures sees { (joint : SeenJoint) → IsFirstFrom (documents_in joint) number first
        → SeesNumber (T.state set.old) joint number result }
    ensures count { IfOk result (λ seen. IfSome seen (λ held. held.n ≤ 16)) }
{
    if is_there && let Some(held) = held_at(set, number)? {
        return Ok(Some(held));
    }
    Ok(first.filter(|held| held.id.number() == number))
}

// Writes the line of what was seen of a number, if those before it were written.
fn put_seen<W: Write>(
    output: &mut Output<W>,
    before: Result<(), WriteFault>,
    number: u16,
    seen: Result<Option<Held>, DeskFault>,
) -> Result<(), WriteFault>
    requires { IfOk seen (λ found. IfSome found (λ held. held.n ≤ 16)) }
    ensures { (text : List ℕ) (old : OutputView) → PutsText text old before output.old
        → PutsText (text ++ seen_line number seen) old result output.new }
{
    before?;
    match seen {
        Ok(Some(held)) => put_held(output, held),
        Ok(None) => Ok(()),
        Err(fault) => put_unsound(output, number, fault.name()),
    }
}

// After a number, what is held of the first document in the file of an older version from the next number on.
fn next_from(joint: &SeenJoint<'_>, first: Option<Held>, number: u32) -> Option<Held>
    requires fits { number < 65536 }
    requires first { IsFirstFrom (documents_in joint.now) number first }
    requires count { IfSome first (λ held. held.n ≤ 16) }
    ensures first { IsFirstFrom (documents_in joint.now) (number + 1) result }
    ensures count { IfSome result (λ held. held.n ≤ 16) }
{
    let Some(held) = first else {
        return None;
    };
    if held.id.number() as u32 == number {
        return first_from(joint, number + 1);
    }
    Some(held)
}

fn put_joint<W: Write>(output: &mut Output<W>, joint: &SeenJoint<'_>) -> Result<(), WriteFault>
    ensures { PutsText (joint_line joint.now) output.old result output.new }
{
    match joint {
        Ok(_) => Ok(()),
        Err(fault) => put_unsound_joint(output, fault.name()),
    }
}

// Tells of each number, as they rise, until the output has refused a line.
fn tell_all<T: StoreSet, W: Write>(set: &mut T, output: &mut Output<W>, joint: &SeenJoint<'_>) -> u8
    ensures same { T.state set.new ≡ T.state set.old }
    ensures tells { GathersHeld (T.state set.old) joint.now output.old result output.new None }
{
    let keys = match set.keys(65_536) {
        Ok(keys) => keys,
        Err(fault) => return refuse(output, MoveFault::from(fault).name()),
    };
    let mut put = put_joint(output, joint);
    let mut unsound = joint.is_err();
    let mut first = first_from(joint, 0);
    for number in 0..65_536u32 {
        if put.is_err() {
            return 1;
        }
        let key = number as u16;
        let seen = seen_at(set, is_listed(&keys, key), first, key);
        unsound |= seen.is_err();
        put = put_seen(output, put, key, seen);
        first = next_from(joint, first, number);
    }
    u8::from(unsound || put.is_err())
}

// Tells of the document of an ID, or of all.
fn tell<T: StoreSet, W: Write>(
    set: &mut T,
    output: &mut Output<W>,
    joint: &SeenJoint<'_>,
    id: Option<FileId>,
) -> u8
    ensures same { T.state set.new ≡ T.state set.old }
    ensures tells { GathersHeld (T.state set.old) joint.now output.old result output.new id }
{
    let Some(id) = id else {
        return tell_all(set, output, joint);
    };
    let number = id.number();
    let first = first_from(joint, number as u32);
    match seen_at(set, true, first, number) {
        Ok(Some(held)) => status_after(put_held(output, held)),
        Ok(None) => match joint {
            Ok(_) => refuse(output, AskFault::NotHeld.name()),
            Err(fault) => {
                let _ = put_unsound_joint(output, fault.name());
                1
            }
        },
        Err(fault) => {
            let _ = put_unsound(output, number, fault.name());
            1
        }
    }
}

// Writes what was gathered; or that memory was refused for it.
fn put_gathered<A: Allocator, W: Write>(
    output: &mut Output<W>,
    gathered: Output<Vec<u8, A>>,
    status: u8,
) -> u8
    ensures { (set : SavedSet) (joint : SeenJoint) (id : Option ℕ) (empty : OutputView) → empty.contents ≡ Some []
        → GathersHeld set joint empty status gathered id → TellsHeld set joint id output.old result output.new }
{
    if gathered.has_failed() {
        return refuse(output, Refusal::Memory.name());
    }
    match output.put(gathered.into_writer().as_slice()) {
        Ok(()) => status,
        Err(_) => 1,
    }
}

// Tells of the document of an ID, or of all, once what was seen is settled.
fn held_of<A: Allocator + Copy, S: Store, T: StoreSet, R: Read, W: Write, E: Write>(
    alloc: A,
    store: S,
    set: T,
    streams: &mut Streams<R, W, E>,
    id: Option<FileId>,
) -> EndedDesk<S, T>
    ensures ends { EndsHeldOf id (desk_at (S.state store) (T.state set) streams.old) result.status
        (desk_at (S.state result.store) (T.state result.set) streams.new) }
    ensures settled { T.is_settled result.set ⊎ IsUnsettledHeld streams.old result.status streams.new }
{
    let mut store = store;
    let mut set = set;
    let loaded = load_settled(&mut store, MOST_JOINT_FILE_BYTES);
    let joint = joint_in(&loaded);
    let mut gathered = Output::new(Vec::new(alloc));
    let status = tell(&mut set, &mut gathered, &joint, id);
    let status = match set.settle() {
        Ok(_) => put_gathered(&mut streams.output, gathered, status),
        Err(fault) => refuse(&mut streams.output, MoveFault::from(fault).name()),
    };
    EndedDesk { status, store, set }
}

/// Prints a line for each document of which a page is held, by rising ID: `IIII n complete`, or
/// `IIII n lacks 3 7 12`, its ID, how many pages it has, and which of them are missing. With the text of an
/// ID, as for `deliver`, it prints that line alone, or `refused NotHeld`.
///
/// In place of a file that can't be read stands `file FILE NAME` (`joint`, of an older version, comes first), and the
/// others are listed all the same. The exit status is then 1. Nothing is printed before what was seen is settled: if that
/// fails, a refusal stands alone. No desk is opened, nothing is saved or moved. Beside the lines and the older file, one
/// document at a time is in memory.
pub fn held_command<A: Allocator + Copy, S: Store, T: StoreSet, R: Read, W: Write, E: Write>(
    alloc: A,
    store: S,
    set: T,
    streams: &mut Streams<R, W, E>,
    text: Option<&str>,
) -> EndedDesk<S, T>
    ensures ends { EndsHeld (option_copied text.entry) (desk_at (S.state store) (T.state set) streams.old) result.status
        (desk_at (S.state result.store) (T.state result.set) streams.new) }
    // No stop takes back what it tells of the folder, unless it has refused the text or could not settle what it saw.
    ensures settled { T.is_settled result.set ⊎ RefusesOnOutput (refusal_name Refusal.FileId) streams.old result.status streams.new
        ⊎ IsUnsettledHeld streams.old result.status streams.new }
{
    let Some(text) = text else {
        return held_of(alloc, store, set, streams, None);
    };
    match id_of(text) {
        Some(id) => held_of(alloc, store, set, streams, Some(id)),
        None => {
            let status = refuse(&mut streams.output, Refusal::FileId.name());
            EndedDesk { status, store, set }
        }
    }
}
