//! What goes to the standard error beside the line of a refusal, since that line can't say it. A note is a line, or
//! two. Where there is no memory for it, nothing is said.

use crate::note::Note;
use crate::place::Place;
use crate::reason::{IS_DESK, Reason};
use crate::system_disk::SystemDisk;
use crate::watched::NO_IMAGE;
use dm_append_label::FileId;
use dm_assembly_desk::{JointFile, MOST_CAPACITY, MOST_JOINT_FILE_BYTES, MoveFault, held_at};
use dm_disk::{FileSet, FileStore, draft_path};
use dm_store::{Store, StoreFault};
use std::alloc::Global;
use std::io::{self, Read};
use std::rt::Files;

// In how many pieces the names of a folder are read at most.
const MOST_PIECES: usize = 65_536;

/// Writes why something was refused to the standard error, at once: the line `relay: NAME: WHY`.
pub fn show_note(rt: &HostRuntime, name: &str, why: &str) {
    tell(rt, Note::of(rt.alloc(), name, why));
}

// Writes a note to the standard error, at once.
fn tell(rt: &HostRuntime, note: Option<Note>) {
    if let Some(note) = note {
        let lines = note.as_str();
        let _ = eprint!(rt; "{lines}");
    }
}

/// That an input had no image, if it was to have some and had none.
pub fn note_of_input(alloc: Global, has_no_image: bool) -> Option<Note> {
    if !has_no_image {
        return None;
    }
    Note::of_text(alloc, NO_IMAGE)
}

/// Why the system refused a call on the file at a path, in its own words.
pub(crate) fn note_of_error(alloc: Global, path: &str, error: &io::Error) -> Option<Note> {
    let words = format!(in alloc; "{error}").ok()?;
    let why = words.as_str().split(" (os error").next()?;
    Note::of(alloc, path, why)
}

/// That a new file was to come to the path of the desk itself.
pub fn note_of_desk(alloc: Global, path: &str) -> Option<Note> {
    Note::of(alloc, path, IS_DESK)
}

/// Writes why the system refused a file to the standard error, at once.
pub(crate) fn note_error(rt: &HostRuntime, path: &str, error: &io::Error) {
    tell(rt, note_of_error(rt.alloc(), path, error));
}

/// Why a command did not find or did not get its files.
pub(crate) fn note_of_reason(alloc: Global, place: &Place, reason: Reason) -> Option<Note> {
    let (path, why) = reason.at(place);
    Note::of(alloc, path, why)
}

/// That a draft of a new file was there before it was saved.
pub(crate) fn note_of_draft(alloc: Global, place: &Place) -> Option<Note> {
    let draft = draft_path(place.file.as_str(), 1).ok()?;
    let why = "was there before; a save that was stopped may have left it";
    Note::of(alloc, draft.as_str(), why)
}

/// That a desk has more documents than this.
pub(crate) fn note_of_many(alloc: Global, place: &Place, limit: usize) -> Option<Note> {
    let way = if limit < MOST_CAPACITY as usize {
        "; --capacity makes room for more"
    } else {
        ""
    };
    let why = format!(in alloc; "it holds more than {limit} documents{way}").ok()?;
    Note::of(alloc, place.named.as_str(), why.as_str())
}

// The key whose file is at a path, unless it is that of the joint file.
fn key_at(place: &Place, path: &str) -> Option<u16> {
    if path == place.file.as_str() {
        return None;
    }
    u16::from_str_radix(path.rsplit('/').next()?, 16).ok()
}

// The fault of the file of a key in this folder, if it has one.
fn fault_of_key(rt: &HostRuntime, folder: &str, key: u16) -> Option<&'static str> {
    let path = String::from_str(rt.alloc(), folder).ok()?;
    let mut set = FileSet::new(SystemDisk::new(rt), path);
    Some(held_at(&mut set, key).err()?.name())
}

// The fault of the joint file, if it has one.
fn fault_of_joint_file(rt: &HostRuntime, file: &str) -> Option<&'static str> {
    let path = String::from_str(rt.alloc(), file).ok()?;
    let mut joint = FileStore::new(SystemDisk::new(rt), path);
    match joint.load(MOST_JOINT_FILE_BYTES) {
        Ok(bytes) => Some(JointFile::read(&bytes?).err()?.name()),
        Err(StoreFault::Device) => Some(MoveFault::Device.name()),
        Err(StoreFault::Memory) => None,
    }
}

/// The fault of the file that a desk's command has loaded last, if it has one: the command has ended there. At the file
/// of a document its ID is named.
pub(crate) fn note_of_file(rt: &HostRuntime, place: &Place, path: &str) -> Option<Note> {
    let alloc = rt.alloc();
    let Some(key) = key_at(place, path) else {
        return Note::of(alloc, path, fault_of_joint_file(rt, path)?);
    };
    let name = fault_of_key(rt, place.folder.as_str(), key)?;
    let Some(id) = FileId::of_number(key) else {
        return Note::of(alloc, path, name);
    };
    let (first, second) = id.words();
    let why = format!(in alloc; "{name}; its ID is {first:02x}{second:02x}").ok()?;
    Note::of(alloc, path, why.as_str())
}

// The first name in a folder that is not UTF-8, escaped, if it has one. Each name ends with a byte 0.
fn odd_name(rt: &HostRuntime, folder: &str) -> Option<String> {
    let path = format!(in rt.alloc(); "{folder}/").ok()?;
    let mut names = rt.open_dir(path.as_str()).ok()?;
    let mut piece = [0u8; 4096];
    for _ in 0..MOST_PIECES {
        let count = names.read(&mut piece).ok()?;
        if count == 0 {
            return None;
        }
        let mut listed = piece[..count].split(|byte| *byte == 0);
        if let Some(name) = listed.find(|name| str::from_utf8(name).is_err()) {
            let escaped = name.escape_ascii();
            return format!(in rt.alloc(); "the name {escaped} is not UTF-8").ok();
        }
    }
    None
}

/// Which name in a desk's folder can't be read, if that is why the folder can't be listed.
pub(crate) fn note_of_folder(rt: &HostRuntime, place: &Place) -> Option<Note> {
    let folder = place.folder.as_str();
    let why = odd_name(rt, folder)?;
    Note::of(rt.alloc(), folder, why.as_str())
}
