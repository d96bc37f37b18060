//! What a desk gives of all documents that it holds: in memory, since it goes to files and not to the output.

ghost use Rattle.std.specs.Prelude.{◌≡◌, false, true, Err, IfOk, MatchOption, MatchResult, Ok, Some, string_bytes};
ghost use Rattle.std.specs.FinMap as map;
ghost use Rattle.dm_assembly_desk.specs.Documents.{Pages, DeskView};
ghost use Rattle.relay_shared.specs.Lines.{id_text};
ghost use Rattle.relay_desk_commands.specs.Desks.{EndsOpening, GivesAll, HasNoDesk, IsTextOfId, OpensDesk, Yields, desk_at, is_given};

use crate::desk_opening::{ClosedDesk, Unopened, desk_of, open_desk};
use crate::documents::Given;
use dm_append_label::FileId;
use dm_assembly_desk::{AskFault, Desk, DeskFault, MOST_CAPACITY};
use dm_store::{Store, StoreSet};
use relay_shared::{EndedDesk, Streams};
use std::alloc::{AllocError, Allocator, Global};
use std::io::{Read, Write};

/// What is given of a document.
#[derive(Drop)]
pub struct GivenDocument<A: Allocator = Global> {
    pub id: FileId,
    pub bytes: Vec<u8, A>,
}

impl<A: Allocator> GivenDocument<A> {
    /// The text of the ID, its two codewords in hexadecimal.
    ///
    /// # Errors
    /// Memory was refused.
    pub fn id_text(&self, alloc: A) -> Result<String<A>, AllocError>
        ensures text { IfOk result (λ text. string_bytes text ≡ id_text self.now.id) }
        ensures of_id { IsTextOfId (id_text self.now.id) self.now.id }
    {
        let (first, second) = self.id.words();
        hex::encode(alloc, [first, second])
    }
}

/// What is given of all documents of a desk.
#[derive(Drop)]
pub struct GivenAll<A: Allocator = Global> {
    /// By rising ID.
    pub documents: Vec<GivenDocument<A>, A>,
    /// Of how many documents nothing is given, since they are not complete.
    pub incomplete: usize,
}

/// What was given of all documents, or why nothing was, by name; and the stores of the desk's files as that left them.
#[derive(Drop)]
pub struct EndedAll<S: Store, T: StoreSet, A: Allocator> {
    pub answer: Result<GivenAll<A>, &'static str>,
    /// The store of the joint file.
    pub store: S,
    /// The set of the files of documents.
    pub set: T,
}

// What is given of a document that is held; nothing is if only the whole document is to be, and a page is missing.
fn given_of<T: StoreSet, A: Allocator + Copy>(
    desk: &Desk<T, A>,
    id: FileId,
    given: Given,
) -> Result<Option<Vec<u8, A>>, AllocError>
    ensures { (pages : Pages) → map.get desk.now.held id ≡ Some pages → IfOk result (λ found.
        MatchOption found (is_given given pages ≡ false)
        (λ bytes. (is_given given pages ≡ true) × Yields given id desk.now.held (Ok bytes.items))) }
{
    match given {
        Given::Document => match desk.document(id) {
            Ok(bytes) => Ok(Some(bytes)),
            Err(AskFault::Memory) => Err(AllocError),
            Err(_) => Ok(None),
        },
        Given::File => match desk.export(id) {
            Ok(bytes) => Ok(Some(bytes)),
            Err(_) => Err(AllocError),
        },
    }
}

// What is given of all documents of an open desk.
fn given_of_each<T: StoreSet, A: Allocator + Copy>(
    alloc: A,
    desk: &Desk<T, A>,
    given: Given,
) -> Result<GivenAll<A>, AllocError>
    ensures { IfOk result (GivesAll given desk.now.held) }
{
    let all = desk.held()?;
    let mut documents = Vec::new(alloc);
    let mut incomplete = 0;
    for held in &all {
        match given_of(desk, held.id, given)? {
            Some(bytes) => documents.push(GivenDocument { id: held.id, bytes })?,
            None => incomplete += 1,
        }
    }
    Ok(GivenAll {
        documents,
        incomplete,
    })
}

// Nothing was given, since there is no desk.
fn without_desk<S: Store, T: StoreSet, A: Allocator>(unopened: Unopened<S, T>) -> EndedAll<S, T, A>
    ensures answer { result.answer ≡ Err unopened.name }
    ensures store { S.state result.store ≡ S.state unopened.store }
    ensures set { T.state result.set ≡ T.state unopened.set }
{
    let Unopened { name, store, set } = unopened;
    let answer = Err(name);
    EndedAll { answer, store, set }
}

/// Opens a desk, and gives of each document that it holds, by rising ID, what `deliver` or `export` writes; or says why
/// not, by the name of a refusal. Of no document is something given where memory is refused for another.
pub fn give_all<A: Allocator + Copy, S: Store, T: StoreSet>(
    alloc: A,
    store: S,
    set: T,
    given: Given,
) -> EndedAll<S, T, A>
    ensures ends { MatchResult result.answer
        (λ all. (desk : DeskView) × OpensDesk (record { joint = S.state store; set = T.state set }) MOST_CAPACITY
        (S.state result.store) desk × (T.state result.set ≡ desk.saved) × GivesAll given desk.held all)
        (λ name. HasNoDesk (record { joint = S.state store; set = T.state set }) MOST_CAPACITY name.now
        (record { joint = S.state result.store; set = T.state result.set })) }
    // No stop takes back what is given.
    ensures settled { IfOk result.answer (λ _. T.is_settled result.set) }
{
    let opened = match desk_of(alloc, store, set, MOST_CAPACITY) {
        Ok(opened) => opened,
        Err(unopened) => return without_desk(unopened),
    };
    let answer = match given_of_each(alloc, &opened.desk, given) {
        Ok(all) => Ok(all),
        Err(AllocError) => Err(DeskFault::Memory.name()),
    };
    match opened.close() {
        Ok(closed) => {
            let ClosedDesk { store, set } = closed;
            EndedAll { answer, store, set }
        }
        Err(unopened) => without_desk(unopened),
    }
}

/// Opens a desk, and closes it again, as is done before anything is given of all its documents. A refusal is a line on
/// `errors`.
pub fn opening_command<A: Allocator + Copy, S: Store, T: StoreSet, R: Read, W: Write, E: Write>(
    alloc: A,
    store: S,
    set: T,
    streams: &mut Streams<R, W, E>,
) -> EndedDesk<S, T>
    ensures { EndsOpening (desk_at (S.state store) (T.state set) streams.old) result.status
        (desk_at (S.state result.store) (T.state result.set) streams.new) }
{
    let opened = match open_desk(alloc, store, set, &mut streams.errors, MOST_CAPACITY) {
        Ok(opened) => opened,
        Err(ended) => return ended,
    };
    match opened.close() {
        Ok(closed) => closed.end(0),
        Err(unopened) => unopened.refuse(&mut streams.errors),
    }
}
