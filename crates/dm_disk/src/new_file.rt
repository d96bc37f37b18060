//! Files that take the place of nothing. A draft is made under a name that nothing has, and is known by its open file:
//! what was not made here is neither removed nor renamed.

use crate::files::{first_bytes, folder_of, found, open_plain, sync_folder};
use crate::key_files::{PathText, with_end};
use dm_store::StoreFault;
use std::alloc::Allocator;
use std::fmt::Write;
use std::fs::{OpenFile, OpenOptions};
use std::io::ErrorKind;
use std::os::unix::fs::MetadataExt;
use std::rt::Files;
use std::{fs, io};

/// How many drafts may be beside a new file: those that programs write, and those that stops have left.
pub const MOST_DRAFTS: u8 = 99;

// Why what was saved does not count.
const REPLACED: &str = "was replaced while it was saved";

/// The name of a draft of the new file at `path`, by its number, 1 to 99.
///
/// # Errors
/// `Device` where it is longer than any that the system takes.
pub fn draft_path(path: &str, number: u8) -> Result<PathText, StoreFault> {
    let mut draft = with_end(path, ".")?;
    write!(draft, "{number}.new").or(Err(StoreFault::Device))?;
    Ok(draft)
}

// Opens a file of its own at `path`, where nothing is.
fn create<R: Files>(runtime: &R, path: &str) -> io::Result<R::File> {
    let mut how = OpenOptions::new();
    how.write(true).create_new(true).open(runtime, path)
}

/// Makes a draft of its own of the new file at `path`, with the first number of which none is there. A folder that
/// can't be opened, and so can't be synced when the draft is in place, is refused before.
pub(crate) fn create_draft<R: Files>(runtime: &R, path: &str) -> io::Result<(R::File, u8)> {
    fs::open(runtime, folder_of(path))?;
    for number in 1..=MOST_DRAFTS {
        let draft = draft_path(path, number).or(Err(io::Error::other("is too long")))?;
        match create(runtime, draft.as_str()) {
            Ok(file) => return Ok((file, number)),
            Err(error) if error.kind() == ErrorKind::AlreadyExists => {}
            Err(error) => return Err(error),
        }
    }
    Err(io::Error::other("has 99 drafts, .1.new to .99.new, already"))
}

// Refuses what has the name, for this reason, unless it is this file; also a link to it.
fn check_name<R: Files>(
    runtime: &R,
    file: &R::File,
    path: &str,
    why: &'static str,
) -> io::Result<()> {
    if let Some(named) = found(fs::symlink_metadata(runtime, path))? {
        let own = file.metadata()?;
        if (own.dev(), own.ino()) == (named.dev(), named.ino()) {
            return Ok(());
        }
    }
    Err(io::Error::other(why))
}

/// Removes what is at `path`, if it is still this file.
pub(crate) fn remove_own<R: Files>(runtime: &R, file: &R::File, path: &str) {
    if check_name(runtime, file, path, REPLACED).is_ok() {
        let _ = fs::remove_file(runtime, path);
    }
}

// Whether a file system that has no second names refuses one in this way.
fn is_want_of_links(kind: ErrorKind) -> bool {
    matches!(kind, ErrorKind::PermissionDenied | ErrorKind::Unsupported)
}

// Renames a draft where the file system has no second names. An empty file that is made at `path` before keeps others
// from the name; a stop may leave it there.
fn rename_draft<R: Files>(runtime: &R, draft: &str, path: &str) -> io::Result<()> {
    let kept = create(runtime, path)?;
    check_name(runtime, &kept, path, REPLACED)?;
    let renamed = fs::rename(runtime, draft, path);
    if renamed.is_err() {
        remove_own(runtime, &kept, path);
    }
    renamed
}

/// Gives a draft, which is open as `file`, the name `path`, if nothing has it. What has it stays as it is.
pub(crate) fn name_draft<R: Files>(
    runtime: &R,
    file: &R::File,
    draft: &str,
    path: &str,
) -> io::Result<()> {
    check_name(runtime, file, draft, "its draft was removed or replaced")?;
    match runtime.hard_link(draft, path) {
        Err(error) if is_want_of_links(error.kind()) => rename_draft(runtime, draft, path)?,
        linked => linked?,
    }
    check_name(runtime, file, path, REPLACED)?;
    remove_own(runtime, file, draft);
    Ok(())
}

/// Whether the bytes are saved at `path` already: in a plain file, and no link to one. If so, the file and its entry are
/// synced.
///
/// # Errors
/// The system refused a call.
pub fn is_saved<R: Files, A: Allocator>(
    alloc: A,
    runtime: &R,
    path: &str,
    bytes: &[u8],
) -> io::Result<bool> {
    if fs::symlink_metadata(runtime, path)?.is_symlink() {
        return Ok(false);
    }
    let Some(mut file) = open_plain(runtime, path)? else {
        return Ok(false);
    };
    if first_bytes(alloc, &mut file, bytes.len())?.as_slice() != bytes {
        return Ok(false);
    }
    file.sync_all()?;
    sync_folder(runtime, folder_of(path))?;
    check_name(runtime, &file, path, REPLACED)?;
    Ok(true)
}
