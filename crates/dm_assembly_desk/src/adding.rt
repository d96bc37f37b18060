//! Pages of one document that are added to what is held: the page of a label that was scanned, or those of a file that
//! is imported. They are held and saved at once.

ghost use Rattle.std.specs.Prelude.{map as each};
ghost use Rattle.std.specs.Prelude.{◌≡◌, ◌≤◌, ◌<◌, false, None, [], length, unwrap_or, IfOk, OnOk, OnErr};
ghost use Rattle.std.specs.FinMap as map;
ghost use Rattle.std.specs.Option.{option_copied};
ghost use Rattle.dm_store.specs.Saved.{outcome_of, SavesKey};
ghost use Rattle.dm_assembly_desk.specs.Documents.{lent_bytes, file, IsEntry, union_of_pages, DeskIsInOrder};
ghost use Rattle.dm_assembly_desk.specs.Desk.{kind_of, JudgedAs, keep_fault, Adds, SaveEnds};

use crate::desk::Desk;
use crate::document::Document;
use crate::documents::{Documents, give};
use crate::file::write_file;
use crate::merging::{added_of, may_join, merge};
use crate::reply::{Imported, Kind};
use dm_append_label::FileId;
use dm_store::{StoreFault, StoreSet};
use std::alloc::{AllocError, Allocator};

/// Why pages of a document were not added, by a scan or by an import: the first of these, in this order, that applies.
/// Each has a fault of the same name in `ScanFault` and in `ImportFault`.
#[derive(Clone, Copy, Debug, PartialEq, Eq)]
pub enum AddFault {
    /// The document is held with another number of pages, or a page with other bytes.
    Conflict,
    /// The document is not held, and there is no room for another.
    Full,
    /// Memory for the pages or for their save was refused.
    Memory,
    /// The save met a device fault.
    Save,
}

impl From<StoreFault> for AddFault {
    ghost from_gives = { λ given fault. fault ≡ keep_fault given };

    fn from(fault: StoreFault) -> Self {
        match fault {
            StoreFault::Device => AddFault::Save,
            StoreFault::Memory => AddFault::Memory,
        }
    }
}

impl<S: StoreSet, A: Allocator + Copy> Desk<S, A> {
    /// Answers the pages of a document, and holds and saves at once those that were not held. Where that fails, what
    /// was held is held.
    pub(crate) fn add(&mut self, id: u16, pages: &[Option<&[u8]>]) -> Result<Imported, AddFault>
        requires running { self.old.is_failed ≡ false }
        requires entry { IsEntry id (each lent_bytes pages.now) }
        ensures adds { Adds id (each lent_bytes pages.now) self.old result self.new }
        ensures after { DeskIsInOrder self.new }
    {
        let added = judge(&self.documents, self.capacity, id, pages)?;
        let Some(file_id) = FileId::of_number(id) else {
            unreachable!()
        };
        let mut reply = Imported {
            id: file_id,
            n: pages.len() as u8,
            added,
            kind: Kind::Again,
        };
        if added == 0 {
            return Ok(reply);
        }
        let Ok(document) = merged_copy(self.alloc, self.documents.get(id), pages) else {
            return Err(AddFault::Memory);
        };
        reply.kind = kind_with(&document);
        match self.hold(id, document) {
            Ok(()) => Ok(reply),
            Err(fault) => Err(AddFault::from(fault)),
        }
    }

    // Holds these pages of a document from now on, and saves its file first. Where that fails, what was held is held,
    // and after a device fault the desk has failed.
    fn hold(&mut self, id: u16, document: Document<A>) -> Result<(), StoreFault>
        requires running { self.old.is_failed ≡ false }
        requires entry { IsEntry id document }
        requires room { map.get self.old.held id ≡ None → map.len self.old.held < self.old.capacity }
        ensures ends { SaveEnds id (map.insert self.old.held id document) (outcome_of result) self.old self.new }
        ensures after { DeskIsInOrder self.new }
    {
        match keep(self.alloc, &mut self.set, &mut self.documents, id, document) {
            Ok(()) => Ok(()),
            Err(StoreFault::Memory) => Err(StoreFault::Memory),
            Err(StoreFault::Device) => {
                self.is_failed = true;
                Err(StoreFault::Device)
            }
        }
    }
}

// What pages are that were added to a document.
fn kind_with<A: Allocator>(document: &Document<A>) -> Kind
    ensures { result ≡ kind_of document.now }
{
    if document.is_complete() {
        Kind::Complete
    } else {
        Kind::New
    }
}

// A copy of each page that is held, and of the others those that are given.
fn merged_copy<A: Allocator + Copy>(
    alloc: A,
    held: Option<&Document<A>>,
    pages: &[Option<&[u8]>],
) -> Result<Document<A>, AllocError>
    requires least { 2 ≤ length pages.now }
    requires room { length pages.now ≤ 16 }
    requires short { length (unwrap_or (option_copied held) []) ≤ length pages.now }
    ensures { IfOk result
        (λ d. d ≡ union_of_pages (unwrap_or (option_copied held.entry) []) (each lent_bytes pages.now)) }
{
    let all = merge(held, pages);
    Document::copy_of(alloc, all.as_slice())
}

// Which pages of a document are added where their save is done, or why none are.
fn judge<A: Allocator + Copy>(
    documents: &Documents<A>,
    capacity: u16,
    id: u16,
    pages: &[Option<&[u8]>],
) -> Result<u16, AddFault>
    requires { length pages.now ≤ 16 }
    ensures { JudgedAs capacity documents.now id (each lent_bytes pages.now) result }
{
    let held = documents.get(id);
    if !may_join(held, pages) {
        return Err(AddFault::Conflict);
    }
    let added = added_of(held, pages);
    if added > 0 && held.is_none() && capacity as usize <= documents.len() {
        return Err(AddFault::Full);
    }
    Ok(added)
}

// Holds these pages of a document from now on, and saves its file. Where that fails, what was held is held.
fn keep<S: StoreSet, A: Allocator + Copy>(
    alloc: A,
    set: &mut S,
    documents: &mut Documents<A>,
    id: u16,
    document: Document<A>,
) -> Result<(), StoreFault>
    requires { IsEntry id document }
    ensures ok { OnOk result (documents.new ≡ map.insert documents.old id document) }
    ensures err { OnErr result (documents.new ≡ documents.old) }
    ensures replaced { SavesKey (S.state set.old) id (file id document) result (S.state set.new) }
{
    let bytes = write_file(alloc, id, &document)?;
    let before = documents.insert(id, document)?;
    match set.replace(id, &bytes) {
        Ok(()) => Ok(()),
        Err(fault) => match before {
            Some(document) => {
                give(documents, id, document);
                Err(fault)
            }
            None => {
                documents.remove(id);
                Err(fault)
            }
        },
    }
}
