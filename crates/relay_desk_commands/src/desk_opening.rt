//! What a command of a desk begins with: the ID of a text, and the desk.

ghost use Rattle.std.specs.Prelude.{MatchOption, ◌≡◌, ℕ, List, MatchResult};
ghost use Rattle.relay_desk_commands.specs.Desks.{IsTextOfId, HasNoDesk, OpensDesk};
ghost use Rattle.dm_assembly_desk.specs.Documents.{DeskIsInOrder};
ghost use Rattle.relay_shared.specs.{Command.TellsRefusal, Files.DeskFiles};

use dm_append_label::FileId;
use dm_assembly_desk::{Desk, MoveFault, move_pages};
use dm_store::{Store, StoreSet};
use relay_shared::{EndedDesk, refuse};
use relay_streams::Output;
use std::alloc::Allocator;
use std::io::Write;

/// The ID of a text, its two codewords in hexadecimal.
pub(crate) fn id_of(text: &str) -> Option<FileId>
    ensures { MatchOption result ((id : ℕ) → ¬ IsTextOfId text.now id) (λ id. IsTextOfId text.now id) }
{
    let mut words = [0u8; 2];
    hex::decode_to_slice(text, &mut words).ok()?;
    FileId::of_words(words[0], words[1])
}

/// An open desk, and the store of the joint file of an older version, whose documents were moved to the desk's set.
/// What was found is not settled yet.
#[derive(Drop)]
pub(crate) struct OpenDesk<S: Store, T: StoreSet, A: Allocator + Copy> {
    pub(crate) store: S,
    pub(crate) desk: Desk<T, A>,
}

/// The stores of a desk that was closed, once what was found there is settled.
#[derive(Drop)]
pub(crate) struct ClosedDesk<S: Store, T: StoreSet> {
    pub(crate) store: S,
    pub(crate) set: T,
}

impl<S: Store, T: StoreSet> ClosedDesk<S, T> {
    /// Ends the command with this status.
    pub(crate) fn end(self, status: u8) -> EndedDesk<S, T>
        ensures status { result.status ≡ status }
        ensures store { result.store ≡ self.store }
        ensures set { result.set ≡ self.set }
    {
        let ClosedDesk { store, set } = self;
        EndedDesk { status, store, set }
    }
}

impl<S: Store, T: StoreSet, A: Allocator + Copy> OpenDesk<S, T, A> {
    /// Closes the desk, and settles what was found when it was opened; or there is no desk, and why.
    pub(crate) fn close(self) -> Result<ClosedDesk<S, T>, Unopened<S, T>>
        ensures { MatchResult result
            (λ closed. (S.state closed.store ≡ S.state self.store) × (T.state closed.set ≡ self.desk.saved)
            × T.is_settled closed.set)
            (λ unopened. (before : DeskFiles) (capacity : ℕ)
            → OpensDesk before capacity (S.state self.store) self.desk
            → HasNoDesk before capacity unopened.name.now
            (record { joint = S.state unopened.store; set = T.state unopened.set })) }
    {
        let OpenDesk { store, desk } = self;
        let mut set = desk.close();
        match set.settle() {
            Ok(_) => {}
            Err(fault) => {
                let name = MoveFault::from(fault).name();
                return Err(Unopened { name, store, set });
            }
        }
        Ok(ClosedDesk { store, set })
    }

    /// Settles what was found, before the desk answers; or there is no desk, and why.
    pub(crate) fn settle(self) -> Result<(OpenDesk<S, T, A>, T::Settled), Unopened<S, T>>
        ensures { MatchResult result
            (λ opened. (S.state opened.0.store ≡ S.state self.store) × (opened.0.desk ≡ self.desk))
            (λ unopened. (before : DeskFiles) (capacity : ℕ)
            → OpensDesk before capacity (S.state self.store) self.desk
            → HasNoDesk before capacity unopened.name.now
            (record { joint = S.state unopened.store; set = T.state unopened.set })) }
    {
        let OpenDesk { store, mut desk } = self;
        match desk.settle() {
            Ok(settled) => Ok((OpenDesk { store, desk }, settled)),
            Err(fault) => {
                let name = MoveFault::from(fault).name();
                let set = desk.close();
                Err(Unopened { name, store, set })
            }
        }
    }

    /// Closes the desk, and ends the command with this status.
    pub(crate) fn end(self, status: u8) -> EndedDesk<S, T>
        ensures status { result.status ≡ status }
        ensures store { S.state result.store ≡ S.state self.store }
        ensures set { T.state result.set ≡ self.desk.saved }
    {
        EndedDesk {
            status,
            store: self.store,
            set: self.desk.close(),
        }
    }
}

/// Why no desk was opened, by name, and the stores of its files as they were left.
#[derive(Drop)]
pub(crate) struct Unopened<S: Store, T: StoreSet> {
    pub(crate) name: &'static str,
    pub(crate) store: S,
    pub(crate) set: T,
}

impl<S: Store, T: StoreSet> Unopened<S, T> {
    /// Writes the line `refused NAME`, and says how the command ends.
    pub(crate) fn refuse<W: Write>(self, output: &mut Output<W>) -> EndedDesk<S, T>
        ensures told { TellsRefusal self.name.now output.old result.status output.new }
        ensures store { S.state result.store ≡ S.state self.store }
        ensures set { T.state result.set ≡ T.state self.set }
    {
        let Unopened { name, store, set } = self;
        let status = refuse(output, name);
        EndedDesk { status, store, set }
    }
}

/// Moves the documents of a joint file to the set, and opens the desk; or says why not.
pub(crate) fn desk_of<A: Allocator + Copy, S: Store, T: StoreSet>(
    alloc: A,
    store: S,
    set: T,
    capacity: u16,
) -> Result<OpenDesk<S, T, A>, Unopened<S, T>>
    ensures { MatchResult result
        (λ opened. OpensDesk (record { joint = S.state store; set = T.state set }) capacity (S.state opened.store)
        opened.desk × DeskIsInOrder opened.desk)
        (λ unopened. HasNoDesk (record { joint = S.state store; set = T.state set }) capacity unopened.name.now
        (record { joint = S.state unopened.store; set = T.state unopened.set })) }
{
    let mut store = store;
    let mut set = set;
    match move_pages(alloc, &mut store, &mut set) {
        Ok(_) => {}
        Err(fault) => {
            let name = fault.name();
            return Err(Unopened { name, store, set });
        }
    }
    match Desk::open(alloc, set, capacity) {
        Ok(desk) => Ok(OpenDesk { store, desk }),
        Err(refused) => {
            let name = refused.fault.name();
            let set = refused.store;
            Err(Unopened { name, store, set })
        }
    }
}

/// The same; or writes the line `refused NAME`, and says how the command ends.
pub(crate) fn open_desk<A: Allocator + Copy, S: Store, T: StoreSet, W: Write>(
    alloc: A,
    store: S,
    set: T,
    output: &mut Output<W>,
    capacity: u16,
) -> Result<OpenDesk<S, T, A>, EndedDesk<S, T>>
    ensures { MatchResult result
        (λ opened. OpensDesk (record { joint = S.state store; set = T.state set }) capacity (S.state opened.store)
        opened.desk × (output.new ≡ output.old) × DeskIsInOrder opened.desk)
        (λ ended. (name : List ℕ) × HasNoDesk (record { joint = S.state store; set = T.state set }) capacity name
        (record { joint = S.state ended.store; set = T.state ended.set })
        × TellsRefusal name output.old ended.status output.new) }
{
    match desk_of(alloc, store, set, capacity) {
        Ok(opened) => Ok(opened),
        Err(unopened) => Err(unopened.refuse(output)),
    }
}
