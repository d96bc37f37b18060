//! The system's own files.

ghost use Rattle.std.specs.Prelude.{None, true};
ghost use Rattle.relay_places.specs.Places.{unclaimed_places};

use crate::command_files::CommandFiles;
use crate::locked::{Done, LockedDisk, file_of, folder_of};
use crate::note::Note;
use crate::notes::{note_of_file, note_of_folder, note_of_reason};
use crate::place::{Access, Named, Place};
use crate::places::{Closed, Places, SavedNew};
use crate::real_file::RealFile;
use crate::reason::Reason;
use crate::saved_output::save_new;
use dm_disk::{FileSet, FileStore};
use std::alloc::AllocError;
use std::rc::Rc;

/// The system's own files, which are locked while they are given out. It claims nothing of them.
#[derive(Drop)]
pub struct RealPlaces<'a> {
    rt: &'a HostRuntime,
}

impl<'a> RealPlaces<'a> {
    /// The system's files, of which none is given out.
    pub fn new(rt: &'a HostRuntime) -> RealPlaces<'a> {
        RealPlaces { rt }
    }
}

// What the line of a refusal can't say of a command's files, of which this one or one of the folder was loaded last.
fn note_of(files: &CommandFiles<'_>, file: &Done, folder: &Done) -> Option<Note> {
    let (rt, place) = (files.rt, &files.place);
    match files.reason.get() {
        None | Some(Reason::Refused) => {}
        Some(reason) => return note_of_reason(rt.alloc(), place, reason),
    }
    if folder.has_no_list {
        return note_of_folder(rt, place).or(files.refused.take());
    }
    if let Some(refused) = files.refused.take() {
        return Some(refused);
    }
    if !place.is_desk || place.access == Access::Looks {
        return None;
    }
    // The joint file is loaded before the files in the folder.
    let path = folder.loaded.as_ref().or(file.loaded.as_ref())?;
    note_of_file(rt, place, path.as_str())
}

// What is to be said of a desk that was made, if one was, and then this.
fn with_new_desk(files: &CommandFiles<'_>, folder: &Done, note: Option<Note>) -> Option<Note> {
    if !folder.has_made_desk {
        return note;
    }
    let alloc = files.rt.alloc();
    let made = note_of_reason(alloc, &files.place, Reason::NewDesk)?;
    match note {
        Some(note) => made.then(alloc, &note),
        None => Some(made),
    }
}

// Closes the files of a command, and gives what was found out of them.
fn close_files(files: &CommandFiles<'_>, file: &Done, folder: &Done, status: u8) -> Closed {
    let reason = files.reason.get();
    let note = if status != 0 || reason.is_some() {
        note_of(files, file, folder)
    } else {
        None
    };
    Closed {
        note: with_new_desk(files, folder, note),
        is_absent: matches!(reason, Some(Reason::NoDesk)),
    }
}

// The files of a command, which were not asked for yet.
fn files_of<'a>(rt: &'a HostRuntime, named: Named<'_>) -> Result<Rc<CommandFiles<'a>>, AllocError> {
    let files = CommandFiles::new(rt, Place::of(rt, named)?);
    Rc::new(rt.alloc(), files).or(Err(AllocError))
}

impl<'a> Places for RealPlaces<'a> {
    type File = FileStore<LockedDisk<'a>>;

    type Folder = FileSet<LockedDisk<'a>>;

    type Input = RealFile<'a>;

    ghost state = { λ _. unclaimed_places };

    ghost known = { λ _ _. record { remaining = None; may_refuse = λ _. true } };

    ghost is_open = { λ _ _. Unit {0} };

    fn open(&mut self, named: Named<'_>) -> Result<(Self::File, Self::Folder), AllocError> {
        let files = files_of(self.rt, named)?;
        Ok((file_of(&files)?, folder_of(&files)?))
    }

    #[rattlefmt::skip] // a signature a line
    fn close(&mut self, _named: Named<'_>, file: Self::File, folder: Self::Folder, status: u8) -> Closed {
        let (file, folder) = (file.into_disk(), folder.into_disk());
        close_files(&folder.files, &file.done, &folder.done, status)
    }

    fn input(&self, name: &str) -> Result<Self::Input, AllocError> {
        let (rt, name) = (self.rt, String::from_str(self.rt.alloc(), name)?);
        Ok(RealFile { rt, name })
    }

    fn save_new(&mut self, path: &str, bytes: &[u8]) -> SavedNew {
        save_new(self.rt, path, bytes)
    }
}
