//! Where no new file, and no new desk, can be: where something is already, and where a desk or a ledger would stumble
//! over it.

use crate::note::Note;
use crate::notes::{note_of_draft, note_of_error, note_of_reason};
use crate::place::Place;
use crate::reason::Reason;
use dm_disk::{draft_path, folder_of};
use std::io::ErrorKind;
use std::rt::Files;

/// Why nothing new can be at a place.
#[derive(Drop)]
pub(crate) struct Obstacle {
    /// What is to be said of it.
    pub(crate) note: Option<Note>,
}

// Whether a path is that of a file that is made beside a ledger or a desk, or lies in a desk's folder.
fn has_own_ending(place: &Place) -> bool {
    let path = place.file.as_str();
    path.ends_with(".new")
        || path.ends_with(".lock")
        || path.ends_with(".pages")
        || path.contains(".pages/")
}

// That a place lies in a desk's folder, by the folder's own name, links followed; or why that can't be found out.
fn note_of_desk_folder(rt: &HostRuntime, place: &Place) -> Option<Option<Note>> {
    let path = folder_of(place.file.as_str());
    let folder = match rt.canonicalize(rt.alloc(), path) {
        Ok(folder) => folder.into_string(),
        Err(error) if error.kind() == ErrorKind::NotFound => return None,
        Err(error) => return Some(note_of_error(rt.alloc(), path, &error)),
    };
    if !folder.as_str().ends_with(".pages") {
        return None;
    }
    let why = "only the files of its desk may be there";
    Some(Note::of(rt.alloc(), folder.as_str(), why))
}

// Why nothing new can be at a place, by what is found there alone.
fn reason_at(rt: &HostRuntime, place: &Place) -> Option<Reason> {
    if has_own_ending(place) {
        return Some(Reason::OwnEnding);
    }
    if !place.is_desk
        && matches!(rt.metadata(place.folder.as_str()), Ok(folder) if folder.is_dir())
    {
        return Some(Reason::IsDesk);
    }
    None
}

/// Why no new ledger, output or desk can be at a place, where no file is, if none can.
pub(crate) fn obstacle_at(rt: &HostRuntime, place: &Place) -> Option<Obstacle> {
    let note = match reason_at(rt, place) {
        Some(reason) => note_of_reason(rt.alloc(), place, reason),
        None => note_of_desk_folder(rt, place)?,
    };
    Some(Obstacle { note })
}

// That something is at a place already and, if there is one, that a draft of it is.
fn note_of_taken(rt: &HostRuntime, place: &Place) -> Option<Note> {
    let note = note_of_reason(rt.alloc(), place, Reason::Taken)?;
    match draft_path(place.file.as_str(), 1) {
        Ok(draft) if rt.symlink_metadata(draft.as_str()).is_ok() => {
            note.then(rt.alloc(), &note_of_draft(rt.alloc(), place)?)
        }
        _ => Some(note),
    }
}

/// Why no output can be saved at a place, if none can.
pub(crate) fn obstacle_to_output(rt: &HostRuntime, place: &Place) -> Option<Obstacle> {
    let file = place.file.as_str();
    let note = match &place.file_fault {
        Some(_) if rt.metadata(file).is_ok() => note_of_taken(rt, place),
        Some(error) if error.kind() == ErrorKind::NotFound => {
            note_of_reason(rt.alloc(), place, Reason::LostLink)
        }
        Some(error) => note_of_error(rt.alloc(), file, error),
        None if rt.symlink_metadata(file).is_ok() => note_of_taken(rt, place),
        None => return obstacle_at(rt, place),
    };
    Some(Obstacle { note })
}
