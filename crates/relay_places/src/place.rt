//! The files that a command names, and where they are.

ghost use Rattle.std.specs.Prelude.{◌≡◌, ◌++◌, if◌then◌else◌, IfOk, IsTrue, string_bytes};
ghost use Rattle.relay_places.specs.Places.{IsInFolder, IsLockOf, IsOwn, IsPlaced, numbered_draft};

use std::alloc::{AllocError, Global};
use std::io::{self, ErrorKind};
use std::rt::Files;

/// What a command does to its files.
#[derive(Clone, Copy, PartialEq, Eq)]
pub enum Access {
    /// It makes a ledger where nothing is.
    Creates,
    /// It saves, and makes the desk if it isn't there.
    Makes,
    /// It saves to what is there.
    Saves,
    /// It reads a desk, and saves only where the joint file has documents, which it moves.
    Reads,
    /// It would gather pages, and has no room for one: it only moves the documents of a joint file.
    Moves,
    /// It never saves.
    Looks,
}

/// The files that a command names.
#[derive(Clone, Copy)]
pub struct Named<'a> {
    /// The path of a ledger, or of a desk's joint file.
    pub file: &'a str,
    /// Whether it is that of a desk, whose other files stand in the folder beside it.
    pub is_desk: bool,
    pub access: Access,
}

/// Where the files that a command names are. At none of the paths is a link, but of one that can't be followed.
#[derive(Drop)]
pub(crate) struct Place {
    /// The path that the command names.
    pub(crate) named: String,
    /// Whether it is that of a desk.
    pub(crate) is_desk: bool,
    pub(crate) access: Access,
    /// The ledger, or the joint file of a desk.
    pub(crate) file: String,
    /// Why it can't be looked at, or a link that is there can't be followed.
    pub(crate) file_fault: Option<io::Error>,
    /// What a save writes first.
    pub(crate) draft: String,
    /// The folder of a desk's files.
    pub(crate) folder: String,
    /// Why it can't be looked at, or a link that is there can't be followed.
    pub(crate) folder_fault: Option<io::Error>,
    /// The file that is locked.
    pub(crate) lock: String,
}

/// A text, and another behind it, as a path with its ending.
pub(crate) fn joined(alloc: Global, first: &str, second: &str) -> Result<String, AllocError>
    ensures { IfOk result (λ whole. string_bytes whole ≡ first.now ++ second.now) }
{
    format!(in alloc; "{first}{second}")
}

// The path that the lock stands beside: of a ledger, or of a desk's folder.
fn locked_path<'a>(is_desk: bool, file: &'a str, folder: &'a str) -> &'a str
    ensures { result.now ≡ (if is_desk then folder.now else file.now) }
{
    if is_desk { folder } else { file }
}

// Whether a path is another, and this ending behind it.
fn is_beside(path: &str, other: &str, ending: &str) -> bool
    ensures { IsTrue result → path.now ≡ other.now ++ ending.now }
{
    match path.strip_suffix(ending) {
        Some(before) => before == other,
        None => false,
    }
}

/// The path of the draft of a file that has this number.
pub(crate) fn numbered_draft(alloc: Global, file: &str, number: u8) -> Result<String, AllocError>
    ensures { IfOk result (λ draft. string_bytes draft ≡ numbered_draft file.now number) }
{
    format!(in alloc; "{file}.{number}.new")
}

// Whether a path leads into a folder.
fn is_in_folder(name: &str, folder: &str) -> bool
    ensures { IsTrue result → IsInFolder folder.now name.now }
{
    match name.strip_prefix(folder) {
        Some(rest) => rest.starts_with("/"),
        None => false,
    }
}

// Where the link at a path leads, if one is there, or why it can't be looked at or followed.
fn follow(rt: &HostRuntime, path: String) -> Result<(String, Option<io::Error>), AllocError> {
    match rt.symlink_metadata(path.as_str()) {
        Ok(found) if found.is_symlink() => {}
        Ok(_) => return Ok((path, None)),
        Err(error) if error.kind() == ErrorKind::NotFound => return Ok((path, None)),
        Err(error) => return Ok((path, Some(error))),
    }
    match rt.canonicalize(rt.alloc(), path.as_str()) {
        Ok(own) => Ok((own.into_string(), None)),
        Err(error) if error.kind() == ErrorKind::OutOfMemory => Err(AllocError),
        Err(error) => Ok((path, Some(error))),
    }
}

impl Place {
    /// Follows the links at the paths of a command. Nothing is opened.
    ///
    /// # Errors
    /// Memory was refused.
    pub(crate) fn of(rt: &HostRuntime, named: Named<'_>) -> Result<Self, AllocError>
        ensures { IfOk result IsPlaced }
    {
        let alloc = rt.alloc();
        let (file, file_fault) = follow(rt, String::from_str(alloc, named.file)?)?;
        let (folder, folder_fault) = follow(rt, joined(alloc, file.as_str(), ".pages")?)?;
        let locked = locked_path(named.is_desk, file.as_str(), folder.as_str());
        Ok(Place {
            named: String::from_str(alloc, named.file)?,
            is_desk: named.is_desk,
            access: named.access,
            draft: joined(alloc, file.as_str(), ".new")?,
            lock: joined(alloc, locked, ".lock")?,
            file,
            file_fault,
            folder,
            folder_fault,
        })
    }

    /// Whether the lock of this place stands at a path.
    pub(crate) fn is_locked_by(&self, path: &str) -> bool
        ensures { IsTrue result → IsLockOf self.now path.now }
    {
        let locked = locked_path(self.is_desk, self.file.as_str(), self.folder.as_str());
        is_beside(path, locked, ".lock")
    }

    /// Whether a path is that of the ledger or the joint file, of its draft without a number, of what is in a desk's
    /// folder, or of that.
    pub(crate) fn has(&self, name: &str) -> bool
        ensures { IsTrue result → IsOwn self.now name.now }
    {
        let (file, folder) = (self.file.as_str(), self.folder.as_str());
        if self.is_desk && (name == folder || is_in_folder(name, folder)) {
            return true;
        }
        name == file || is_beside(name, file, ".new")
    }
}
