//! A new file that the output of a command is saved as.

use crate::new_place::{obstacle_at, obstacle_to_output};
use crate::note::Note;
use crate::notes::{note_of_draft, note_of_error, note_of_reason};
use crate::place::{Access, Named, Place};
use crate::places::SavedNew;
use crate::reason::Reason;
use dm_disk::{FileStore, RealDisk, is_saved};
use dm_store::{Store, StoreFault};
use std::io::{self, ErrorKind};

// A save of which nothing is to be said.
const SAVED: SavedNew = SavedNew {
    answer: Ok(()),
    note: None,
};

// A save that memory was refused for.
const NO_MEMORY: SavedNew = SavedNew {
    answer: Err(StoreFault::Memory),
    note: None,
};

// What is to be said of a save that was refused at a place.
fn note_of_refusal(rt: &HostRuntime, place: &Place, error: &io::Error) -> Option<Note> {
    match error.kind() {
        ErrorKind::AlreadyExists => note_of_reason(rt.alloc(), place, Reason::Taken),
        _ => note_of_error(rt.alloc(), place.file.as_str(), error),
    }
}

// Saves the bytes as the file of a place, where none was.
fn save_at(rt: &HostRuntime, place: &Place, bytes: &[u8]) -> SavedNew {
    let Ok(path) = place.file.clone() else {
        return NO_MEMORY;
    };
    let mut store = FileStore::new(RealDisk::of_new_files(rt.alloc(), rt), path);
    let answer = store.replace(bytes);
    let disk = store.into_disk();
    let note = match &disk.last_error() {
        _ if answer.is_ok() && disk.other_drafts() > 0 => note_of_draft(rt.alloc(), place),
        Some(error) if answer.is_err() => note_of_refusal(rt, place, error),
        _ => None,
    };
    SavedNew { answer, note }
}

// Whether bytes may be those of a ledger, or of a file of pages.
fn may_be_own(bytes: &[u8]) -> bool {
    bytes.starts_with(b"DMLG") || bytes.starts_with(b"DMPG")
}

// Whether the bytes are saved at a place already. A file that may be a ledger's or a desk's own is not theirs, since it
// may go or change with that.
fn is_saved_at(rt: &HostRuntime, place: &Place, bytes: &[u8]) -> bool {
    let path = place.named.as_str();
    !may_be_own(bytes)
        && obstacle_at(rt, place).is_none()
        && matches!(is_saved(rt.alloc(), rt, path, bytes), Ok(true))
}

/// Saves the bytes as a new file, as stores are saved. It is done, too, if the file is there and has these bytes, and
/// they aren't those of a ledger or of pages.
pub(crate) fn save_new(rt: &HostRuntime, name: &str, bytes: &[u8]) -> SavedNew {
    let named = Named {
        file: name,
        is_desk: false,
        access: Access::Creates,
    };
    let Ok(place) = Place::of(rt, named) else {
        return NO_MEMORY;
    };
    if let Some(obstacle) = obstacle_to_output(rt, &place) {
        return match is_saved_at(rt, &place, bytes) {
            true => SAVED,
            false => SavedNew {
                answer: Err(StoreFault::Device),
                note: obstacle.note,
            },
        };
    }
    save_at(rt, &place, bytes)
}
