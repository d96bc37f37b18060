//! Ledgers and desks in memory, and files to be read.

ghost use Rattle.std.specs.Prelude.{◌≡◌, ◌∷◌, ◌⊎◌, [], Some, false, option_map, string_bytes, unwrap_or, IsErr};
ghost use Rattle.dm_store.specs.Saved.{Replaces};
ghost use Rattle.relay_places.specs.Places.{HasSaved, HoldNothing, KeepsOthers, SavesNew, files_of, kept_at};

use crate::place::{Access, Named};
use crate::places::{Closed, Places, SavedNew};
use dm_store::{MemSet, MemStore, Store, StoreFault, StoreSet};
use std::alloc::{AllocError, Global};
use std::mem;

/// What is at a path: a ledger or a joint file, and the folder beside it.
#[derive(Drop)]
pub struct MemPlace {
    pub path: String,
    pub files: (MemStore, MemSet),
}

/// What is at each path: of several places at one the first. The files to be read have places of their own. Of one that
/// isn't there nothing is read: memory is refused for it.
#[derive(Drop)]
pub struct MemPlaces<'a> {
    pub alloc: Global,
    /// The one that was opened last.
    pub opened: MemPlace,
    pub kept: Vec<MemPlace>,
    pub inputs: &'a [MemPlace],
}

// Takes what is at a path, and leaves nothing there.
fn take(kept: &mut [MemPlace], alloc: Global, path: &str) -> (MemStore, MemSet)
    ensures given { files_of result.0 result.1 ≡ kept_at kept.old path.now }
    ensures others { KeepsOthers path.now (kept_at kept.old) (kept_at kept.new) }
{
    let Some((first, rest)) = kept.split_first_mut() else {
        return (MemStore::new(alloc), MemSet::new(alloc));
    };
    if first.path.as_str() == path {
        return mem::replace(&mut first.files, (MemStore::new(alloc), MemSet::new(alloc)));
    }
    take(rest, alloc, path)
}

// The bytes that are at a path, if any are.
fn content<'a>(kept: &'a [MemPlace], path: &str) -> Option<&'a [u8]>
    ensures { option_map (λ bytes. bytes.now) result ≡ (kept_at kept.now path.now).joint.content }
{
    match kept {
        [first, ..] if first.path.as_str() == path => first.files.0.content(),
        [_, rest @ ..] => content(rest, path),
        [] => None,
    }
}

// Saves the bytes as a file, where neither a file nor a desk is; or they are that file's already, and no desk's.
fn save_where_none(file: &mut MemStore, folder: &mut MemSet, bytes: &[u8]) -> Result<(), StoreFault>
    ensures set { folder.new ≡ folder.old }
    ensures saves { ((file.new ≡ file.old) × (IsErr result ⊎ HasSaved bytes.now result file.old))
        ⊎ (HoldNothing (files_of file.old folder.old) × Replaces file.old bytes.now result file.new) }
{
    if !folder.keys(0)?.is_empty() {
        return Err(StoreFault::Device);
    }
    match file.content() {
        Some(held) if held == bytes => Ok(()),
        Some(_) => Err(StoreFault::Device),
        None => file.replace(bytes),
    }
}

// Saves the bytes as a file at a path, where neither a file nor a desk is.
fn save_at(places: &mut MemPlaces<'_>, path: &str, bytes: &[u8]) -> Result<(), StoreFault>
    ensures { SavesNew path.now bytes.now (kept_at (places.old.opened ∷ places.old.kept.items)) result
        (kept_at (places.new.opened ∷ places.new.kept.items)) }
{
    let named = Named {
        file: path,
        is_desk: false,
        access: Access::Creates,
    };
    let Ok((mut file, mut folder)) = places.open(named) else {
        return Err(StoreFault::Memory);
    };
    let answer = save_where_none(&mut file, &mut folder, bytes);
    places.close(named, file, folder, 0);
    answer
}

#[rattlefmt::skip] // a signature a line
impl<'a> Places for MemPlaces<'a> {
    type File = MemStore;

    type Folder = MemSet;

    type Input = &'a [u8];

    ghost state = { λ places. kept_at (places.opened ∷ places.kept.items) };

    ghost known = { λ places name. record {
      remaining = Some (unwrap_or (kept_at places.inputs.now name).joint.content []);
      may_refuse = λ _. false;
    } };

    ghost is_open = { λ places path. string_bytes places.opened.path ≡ path };

    fn open(&mut self, named: Named<'_>) -> Result<(MemStore, MemSet), AllocError> {
        let path = String::from_str(self.alloc, named.file)?;
        let files = (MemStore::new(self.alloc), MemSet::new(self.alloc));
        let before = mem::replace(&mut self.opened, MemPlace { path, files });
        if let Err(refused) = self.kept.insert(0, before) {
            self.opened = refused.value;
            return Err(AllocError);
        }
        Ok(take(&mut self.kept, self.alloc, named.file))
    }

    fn close(&mut self, _named: Named<'_>, file: MemStore, folder: MemSet, _status: u8) -> Closed {
        self.opened.files = (file, folder);
        Closed { note: None, is_absent: false }
    }

    fn input(&self, name: &str) -> Result<&'a [u8], AllocError> {
        content(self.inputs, name).ok_or(AllocError)
    }

    fn save_new(&mut self, path: &str, bytes: &[u8]) -> SavedNew {
        let answer = save_at(self, path, bytes);
        SavedNew { answer, note: None }
    }
}
