//! Calls on the system's files.

use dm_store::StoreFault;
use std::alloc::Allocator;
use std::fs::{OpenFile, OpenOptions};
use std::io::{ErrorKind, Read};
use std::os::unix::fs::{OpenOptionsExt, PermissionsExt};
use std::rt::Files;
use std::{fs, io};

// Why what is there is not read.
fn not_plain() -> io::Error {
    io::Error::other("not a plain file")
}

// What was looked for, or `None` where it isn't there.
pub(crate) fn found<T>(looked: io::Result<T>) -> io::Result<Option<T>> {
    match looked {
        Ok(found) => Ok(Some(found)),
        Err(error) if error.kind() == ErrorKind::NotFound => Ok(None),
        Err(error) => Err(error),
    }
}

// Whether a plain file is at `path`, links followed. What else is there, as a folder or a pipe, is an error: opening it
// might wait without end.
fn is_plain_file<R: Files>(runtime: &R, path: &str) -> io::Result<bool> {
    match found(fs::metadata(runtime, path))? {
        Some(metadata) if metadata.is_file() => Ok(true),
        Some(_) => Err(not_plain()),
        None => Ok(false),
    }
}

// Opens what is at `path`. Of a pipe that has come there since it was looked at both ends are opened, so that it
// doesn't wait. What may not be written is looked at again, and then opened to be read alone.
fn open_at_once<R: Files>(runtime: &R, path: &str) -> io::Result<R::File> {
    let mut how = OpenOptions::new();
    how.read(true).write(true);
    match how.open(runtime, path) {
        Ok(file) => Ok(file),
        Err(error) => match is_plain_file(runtime, path) {
            Ok(true) => fs::open(runtime, path),
            _ => Err(error),
        },
    }
}

// The plain file at `path`, open, or `None` where it isn't there.
pub(crate) fn open_plain<R: Files>(runtime: &R, path: &str) -> io::Result<Option<R::File>> {
    if !is_plain_file(runtime, path)? {
        return Ok(None);
    }
    let Some(file) = found(open_at_once(runtime, path))? else {
        return Ok(None);
    };
    if !matches!(file.metadata(), Ok(metadata) if metadata.is_file()) {
        return Err(not_plain());
    }
    Ok(Some(file))
}

// The first `limit + 1` bytes of a file.
pub(crate) fn first_bytes<F: Read + Drop, A: Allocator>(
    alloc: A,
    file: F,
    limit: usize,
) -> io::Result<Vec<u8, A>> {
    let mut bytes = Vec::new(alloc);
    let most = (limit as u64).saturating_add(1);
    file.take(most).read_to_end(&mut bytes)?;
    Ok(bytes)
}

// The first `limit + 1` bytes of the plain file at `path`, or `None` where it isn't there.
pub(crate) fn load_file<R: Files, A: Allocator>(
    alloc: A,
    runtime: &R,
    path: &str,
    limit: usize,
) -> io::Result<Option<Vec<u8, A>>> {
    match open_plain(runtime, path)? {
        Some(file) => Ok(Some(first_bytes(alloc, file, limit)?)),
        None => Ok(None),
    }
}

// Makes a file of its own at `path`. What stands there, as a link, a second name of another file, or what a stop has
// left, is itself removed; what it leads to is not touched.
fn create_anew<R: Files>(runtime: &R, how: &OpenOptions, path: &str) -> io::Result<R::File> {
    match how.open(runtime, path) {
        Err(error) if error.kind() == ErrorKind::AlreadyExists => {
            fs::remove_file(runtime, path)?;
            how.open(runtime, path)
        }
        ended => ended,
    }
}

// The path of the file whose draft a store names.
pub(crate) fn file_of(draft: &str) -> &str {
    draft.strip_suffix(".new").unwrap_or(draft)
}

// Makes the draft of a file, with the mode of the one that it is to replace, if that is there. At no moment may more
// users read it. A folder that can't be opened, and so can't be synced when the draft is in place, is refused before.
pub(crate) fn create_replacement<R: Files>(runtime: &R, draft: &str) -> io::Result<R::File> {
    fs::open(runtime, folder_of(draft))?;
    let replaced = found(fs::metadata(runtime, file_of(draft)))?;
    let mut how = OpenOptions::new();
    how.write(true).create_new(true);
    if let Some(replaced) = &replaced {
        how.mode(replaced.permissions().mode());
    }
    let file = create_anew(runtime, &how, draft)?;
    if let Some(replaced) = replaced {
        file.set_permissions(replaced.permissions())?;
    }
    Ok(file)
}

/// The folder that has the entry `path`, with a slash at its end, so that a pipe that has come there is not opened; or
/// `.` where the path names no folder.
pub fn folder_of(path: &str) -> &str {
    match path.trim_end_matches('/').rsplit_once('/') {
        Some((above, _)) => path.get(..above.len() + 1).unwrap_or("."),
        None => ".",
    }
}

// Syncs a folder, whose path ends with a slash, or is `.`.
pub(crate) fn sync_folder<R: Files>(runtime: &R, folder: &str) -> io::Result<()> {
    fs::open(runtime, folder)?.sync_all()
}

// Syncs the folder that has the entry `path`, so that what was renamed, made or removed there stays so. If that folder
// isn't there, the one above it is synced, which hasn't the folder's entry.
pub(crate) fn sync_folder_of<R: Files>(runtime: &R, path: &str) -> io::Result<()> {
    let folder = folder_of(path);
    match sync_folder(runtime, folder) {
        Err(error) if error.kind() == ErrorKind::NotFound => {
            sync_folder(runtime, folder_of(folder))
        }
        ended => ended,
    }
}
