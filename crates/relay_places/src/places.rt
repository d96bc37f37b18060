//! What is at the paths that a line names.

ghost use Rattle.std.specs.Prelude.{◌≡◌, ℕ, List, IfOk, IsTrue, OnErr, OnOk};
ghost use Rattle.relay_shared.specs.Command.{FileView};
ghost use Rattle.relay_places.specs.Places.{HoldNothing, PlacesView, KeepsOthers, SavesNew, files_of};

use crate::note::Note;
use crate::place::Named;
use dm_store::{Store, StoreFault, StoreSet};
use relay_shared::NamedFile;
use std::alloc::AllocError;

/// What was found out of the files of a command, once they are taken back.
#[derive(Drop)]
pub struct Closed {
    /// What is to be said of them on the standard error.
    pub note: Option<Note>,
    /// Whether nothing was there of a desk that was to be read.
    pub is_absent: bool,
}

/// What came of saving a new file.
#[derive(Drop)]
pub struct SavedNew {
    pub answer: Result<(), StoreFault>,
    /// What is to be said of it on the standard error.
    pub note: Option<Note>,
}

/// What is at the paths of a system: at each a ledger or a desk; and files to be read.
pub trait Places: Drop {
    /// A ledger, or the joint file of a desk.
    type File: Store;

    /// The folder of a desk's files.
    type Folder: StoreSet;

    /// A file to be read.
    type Input: NamedFile + Drop;

    /// What is there.
    ghost state: { Self → PlacesView };

    /// What is known of the files to be read, by their names.
    ghost known: { Self → List ℕ → FileView };

    /// Whether the files at a path are given out.
    ghost is_open: { Self → List ℕ → Type 0 };

    /// Gives out the file and the folder that a command names. They lock themselves at their first load, if the command
    /// may save.
    ///
    /// # Errors
    /// Memory was refused.
    fn open(&mut self, named: Named<'_>) -> Result<(Self::File, Self::Folder), AllocError>
        ensures there { IfOk result (λ files. files_of (Self.File.state files.0) (Self.Folder.state files.1)
            ≡ state self.old named.entry.file.now) }
        ensures others { KeepsOthers named.entry.file.now (state self.old) (state self.new) }
        ensures is_open { OnOk result (is_open self.new named.entry.file.now) }
        ensures refused { OnErr result (state self.new ≡ state self.old) };

    /// Takes them back after a command of this status, and ends their lock. Where nothing was there, they hold nothing.
    #[rattlefmt::skip] // a signature a line
    fn close(&mut self, named: Named<'_>, file: Self::File, folder: Self::Folder, status: u8) -> Closed
        requires { is_open self.old named.file.now }
        ensures there { state self.new named.entry.file.now
            ≡ files_of (Self.File.state file) (Self.Folder.state folder) }
        ensures others { KeepsOthers named.entry.file.now (state self.old) (state self.new) }
        ensures absent { IsTrue result.is_absent → HoldNothing (state self.new named.entry.file.now) };

    /// The file to be read of a name.
    ///
    /// # Errors
    /// Memory was refused.
    fn input(&self, name: &str) -> Result<Self::Input, AllocError>
        ensures { IfOk result (λ given. Self.Input.known given ≡ known self.now name.now) };

    /// Saves the bytes as a new file, as stores are saved: whenever the machine stops, the whole file is there or none.
    /// Nothing is replaced: a path that has a file with other bytes, or is that of a desk, is refused. It may be done,
    /// too, if the file has these bytes already.
    fn save_new(&mut self, path: &str, bytes: &[u8]) -> SavedNew
        ensures { SavesNew path.now bytes.now (state self.old) result.answer (state self.new) };
}
