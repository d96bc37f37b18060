//! The files of a command, which are locked at their first load if it may save.

ghost use Rattle.std.specs.Prelude.{◌≡◌, IfOk, IsTrue, MatchResult, string_bytes};
ghost use Rattle.relay_places.specs.Places.{Enters, Guards, locks};

use crate::guarded::remove_draft;
use crate::lock::{Held, Lock, LockFault};
use crate::new_place::obstacle_at;
use crate::note::Note;
use crate::notes::{note_of_draft, note_of_error, note_of_many};
use crate::place::{Access, Place, numbered_draft};
use crate::reason::Reason;
use dm_disk::{MOST_DRAFTS, draft_path};
use dm_store::StoreFault;
use std::cell::{Cell, OnceCell};
use std::fs::Metadata;
use std::io::{self, ErrorKind};
use std::os::unix::fs::MetadataExt;
use std::rt::Files;

// The length of a joint file that has no documents.
const EMPTY_JOINT_FILE_BYTES: u64 = 7;

/// What is at the paths of a command.
#[derive(Clone, Copy)]
pub(crate) struct Found {
    /// Whether anything is there.
    pub(crate) is_any: bool,
    /// Whether a file is there that may have documents of a joint file.
    pub(crate) has_documents: bool,
}

/// Why a command has no lock, and goes on.
#[derive(Clone, Copy)]
pub(crate) enum NoLock {
    /// It wants none.
    Unneeded,
    /// There is no folder for the lock, so nothing is there to be loaded.
    NoFolder,
}

/// That a command has come to its files: what it has found, and its lock.
#[derive(Drop)]
pub(crate) struct Entered {
    pub(crate) found: Found,
    pub(crate) lock: Result<Lock, NoLock>,
}

// Whether a command locks its files at its first load.
fn locks_files(access: Access, found: Found) -> bool
    ensures { result ≡ locks access found }
{
    match access {
        Access::Creates => !found.is_any,
        Access::Makes => true,
        Access::Saves => found.is_any,
        Access::Reads | Access::Moves => found.has_documents,
        Access::Looks => false,
    }
}

// Whether a command has come to its files at this place: what is to be locked for it is.
fn has_entered(place: &Place, entered: &Entered) -> bool
    ensures { IsTrue result → Enters place.now entered.now }
{
    let locks = locks_files(place.access, entered.found);
    match &entered.lock {
        Ok(lock) => locks && lock.path == place.lock,
        Err(NoLock::Unneeded) => !locks,
        Err(NoLock::NoFolder) => !entered.found.is_any,
    }
}

// Whether something is at a path, as far as that can be found out.
fn may_be_there(rt: &HostRuntime, path: &str) -> bool {
    let found = rt.symlink_metadata(path);
    !matches!(found, Err(error) if error.kind() == ErrorKind::NotFound)
}

// Whether the draft of this number, or for 0 the one without, is a second name of the file, which a stop has left it.
fn is_own_draft(rt: &HostRuntime, place: &Place, number: u8, file: &Metadata) -> bool {
    let numbered = draft_path(place.file.as_str(), number);
    let draft = match &numbered {
        _ if number == 0 => place.draft.as_str(),
        Ok(draft) => draft.as_str(),
        Err(_) => return false,
    };
    matches!(rt.symlink_metadata(draft), Ok(draft) if (draft.dev(), draft.ino()) == (file.dev(), file.ino()))
}

// Whether a file has a name beside its own, and beside those of drafts, which a stop may have left it.
fn has_second_name(rt: &HostRuntime, place: &Place, file: &Metadata) -> bool {
    let mut names = file.nlink();
    if names > 1 {
        for number in 0..=MOST_DRAFTS {
            names = names.saturating_sub(u64::from(is_own_draft(rt, place, number, file)));
        }
    }
    names > 1
}

// Removes the drafts that a stop has left a file as second names, by the lock that was just taken.
fn remove_own_drafts(rt: &HostRuntime, place: &Place, lock: &Lock, file: &Metadata) {
    for number in 1..=MOST_DRAFTS {
        if is_own_draft(rt, place, number, file)
            && let Ok(draft) = numbered_draft(rt.alloc(), place.file.as_str(), number)
            && place.is_locked_by(lock.path.as_str())
        {
            remove_draft(rt, place, lock, draft.as_str());
        }
    }
}

/// The files of one command, which its stores share: they are looked at, and locked if the command may save, at its
/// first load. The lock is held until this is dropped.
#[derive(Drop)]
pub(crate) struct CommandFiles<'a> {
    pub(crate) rt: &'a HostRuntime,
    pub(crate) place: Place,
    // What came of the first load, or why the command can't have its files.
    entered: OnceCell<Result<Entered, Reason>>,
    /// Why the command did not find or did not get its files, if it didn't.
    pub(crate) reason: Cell<Option<Reason>>,
    /// What is to be said of the last call that the system refused.
    pub(crate) refused: Cell<Option<Note>>,
}

impl<'a> CommandFiles<'a> {
    /// The files at a place, which were not asked for yet.
    pub(crate) fn new(rt: &'a HostRuntime, place: Place) -> CommandFiles<'a> {
        CommandFiles {
            rt,
            place,
            entered: OnceCell::new(),
            reason: Cell::new(None),
            refused: Cell::new(None),
        }
    }

    /// Keeps why the system has refused a call on the file at a path.
    pub(crate) fn keep(&self, path: &str, error: &io::Error) {
        self.refused
            .set(note_of_error(self.rt.alloc(), path, error));
    }

    // Why a link can't be followed: it leads nowhere, which has this reason, or else the system's reason is kept.
    fn lost(&self, path: &str, error: &io::Error, nowhere: Reason) -> Reason {
        if error.kind() == ErrorKind::NotFound {
            return nowhere;
        }
        self.keep(path, error);
        Reason::Refused
    }

    // Why nothing new can be at the place of the command, if nothing can.
    fn why_not_new(&self) -> Option<Reason> {
        let (rt, place) = (self.rt, &self.place);
        if let Some(obstacle) = obstacle_at(rt, place) {
            self.refused.set(obstacle.note);
            return Some(Reason::Refused);
        }
        if place.access == Access::Creates && rt.symlink_metadata(place.draft.as_str()).is_ok() {
            return Some(Reason::DraftTaken);
        }
        None
    }

    // The plain file of the command, if surely something is there.
    fn file(&self) -> Result<Option<Metadata>, Reason> {
        let path = self.place.file.as_str();
        if let Some(error) = &self.place.file_fault {
            return Err(self.lost(path, error, Reason::LostLink));
        }
        match self.rt.metadata(path) {
            Ok(metadata) if metadata.is_file() => Ok(Some(metadata)),
            Ok(_) => Err(Reason::NoPlainFile),
            Err(error) if error.kind() == ErrorKind::NotFound => Ok(None),
            Err(error) => {
                self.keep(path, &error);
                Err(Reason::Refused)
            }
        }
    }

    // What is there, beside this file. That nothing is, where a desk is to be read, is kept.
    fn found(&self, file: Option<&Metadata>) -> Found {
        let place = &self.place;
        let has_folder = place.is_desk && may_be_there(self.rt, place.folder.as_str());
        let is_any = file.is_some() || has_folder;
        if !is_any && place.is_desk && !matches!(place.access, Access::Makes | Access::Moves) {
            self.reason.set(Some(Reason::NoDesk));
        }
        let has_documents = matches!(file, Some(file) if file.len() > EMPTY_JOINT_FILE_BYTES);
        Found {
            is_any,
            has_documents,
        }
    }

    // Locks the files, if there is a folder for the lock, and removes what a stop has left of this one's names.
    fn lock(&self, file: Option<&Metadata>) -> Result<Result<Lock, NoLock>, Reason>
        ensures { IfOk result (λ taken. MatchResult taken
            (λ lock. string_bytes lock.path ≡ string_bytes self.now.place.lock) (λ why. why ≡ NoLock.NoFolder)) }
    {
        let path = self.place.lock.as_str();
        let lock = match Lock::take(self.rt, path) {
            Ok(lock) => lock,
            Err(LockFault::NoFolder) => return Ok(Err(NoLock::NoFolder)),
            Err(LockFault::Busy) => return Err(Reason::Busy),
            Err(LockFault::Lost) => return Err(Reason::LostLock),
            Err(LockFault::Refused(None)) => return Err(Reason::NoLock),
            Err(LockFault::Refused(Some(error))) => {
                self.keep(path, &error);
                return Err(Reason::Refused);
            }
        };
        if let Some(file) = file
            && file.nlink() > 1
        {
            remove_own_drafts(self.rt, &self.place, &lock, file);
        }
        Ok(Ok(lock))
    }

    // Looks at what is there, and locks it if the command wants that.
    fn enter(&self) -> Result<Entered, Reason>
        ensures { IfOk result (λ entered. Enters self.now.place entered) }
    {
        let file = self.file()?;
        let file = file.as_ref();
        let found = self.found(file);
        if !locks_files(self.place.access, found) {
            let lock = Err(NoLock::Unneeded);
            return Ok(Entered { found, lock });
        }
        if !found.is_any
            && let Some(reason) = self.why_not_new()
        {
            return Err(reason);
        }
        if matches!(file, Some(file) if has_second_name(self.rt, &self.place, file)) {
            return Err(Reason::SecondName);
        }
        let lock = self.lock(file)?;
        if lock.is_err() && found.is_any {
            return Err(Reason::NoLock);
        }
        Ok(Entered { found, lock })
    }

    // Keeps why the command may not go on.
    fn refuse(&self, reason: Reason) -> StoreFault {
        self.reason.set(Some(reason));
        StoreFault::Device
    }

    /// Whether the command may load what is at a path.
    pub(crate) fn may_load(&self, path: &str) -> Result<&Entered, StoreFault>
        ensures { IfOk result (λ entered. Enters self.now.place entered.now) }
    {
        if self.entered.get().is_none() {
            let _ = self.entered.set(self.enter());
        }
        let entered = match self.entered.get() {
            Some(Ok(entered)) if has_entered(&self.place, entered) => entered,
            Some(Err(reason)) => return Err(self.refuse(*reason)),
            _ => return Err(self.refuse(Reason::NotLocked)),
        };
        let folder = self.place.folder.as_str();
        match &self.place.folder_fault {
            Some(error) if path.starts_with(folder) => {
                Err(self.refuse(self.lost(folder, error, Reason::LostFolder)))
            }
            _ => Ok(entered),
        }
    }

    /// Whether the command may save to a path: the lock that guards it, if that is held, and other programs find it.
    pub(crate) fn may_save(&self, path: &str) -> Result<Held<'_>, StoreFault>
        ensures { IfOk result (λ lock. Guards self.now.place lock.path.now path.now) }
    {
        let lock = match self.entered.get() {
            Some(Ok(Entered { lock: Ok(lock), .. })) if self.place.has(path) => lock,
            _ => return Err(self.refuse(Reason::NotLocked)),
        };
        match lock.look(self.rt) {
            Some(held) if self.place.is_locked_by(held.path) => Ok(held),
            _ => Err(self.refuse(Reason::LostLock)),
        }
    }

    /// Keeps what is to be said of a new ledger whose draft was to get its name: that something has come there, or that
    /// another draft of it was there.
    pub(crate) fn look_at_new(&self, is_named: bool, other_drafts: u8) {
        let place = &self.place;
        if place.access != Access::Creates {
            return;
        }
        if is_named && other_drafts > 0 {
            self.refused.set(note_of_draft(self.rt.alloc(), place));
            self.reason.set(Some(Reason::Refused));
        }
        if !is_named && self.rt.symlink_metadata(place.file.as_str()).is_ok() {
            self.reason.set(Some(Reason::Taken));
        }
    }

    /// Whether nothing is at the paths of a desk.
    pub(crate) fn has_no_desk(&self) -> bool {
        let (file, folder) = (self.place.file.as_str(), self.place.folder.as_str());
        !may_be_there(self.rt, folder) && !may_be_there(self.rt, file)
    }

    /// Keeps what is to be said of a desk with more documents than the command takes.
    pub(crate) fn look_at_count(&self, count: usize, limit: usize) {
        if count > limit {
            self.refused
                .set(note_of_many(self.rt.alloc(), &self.place, limit));
        }
    }

    /// The path that is named where a draft could not be written.
    pub(crate) fn written_at<'b>(&'b self, draft: &'b str) -> &'b str {
        match self.place.access {
            Access::Creates => self.place.file.as_str(),
            _ => draft,
        }
    }
}
