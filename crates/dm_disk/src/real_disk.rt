//! The system's own files. No contract can say what a file holds, so nothing is claimed here: that these calls do what
//! [`Disk`] says is trusted, and this page is to be read.

ghost use Rattle.dm_disk.specs.Disk.{unclaimed};

use crate::disk::{Disk, Folders};
use crate::files::{
    create_replacement, file_of, folder_of, found, load_file, sync_folder, sync_folder_of,
};
use crate::key_files::{key_of, with_end};
use crate::new_file::{create_draft, draft_path, name_draft, remove_own};
use dm_store::StoreFault;
use std::alloc::{Allocator, Global};
use std::fs::{OpenFile, read_dir};
use std::io::{ErrorKind, Write};
use std::rt::Files;
use std::{fs, io};

// How many names a folder may have.
const MOST_NAMES: usize = 131_072;

/// The system's own files. It claims nothing: it is not honest.
#[derive(Drop)]
pub struct RealDisk<'a, R: Files, A: Allocator + Copy = Global> {
    alloc: A,
    runtime: &'a R,
    // The draft that was written last, open until its name is synced. So its sync sees each fault of its writes, and it
    // is known from what may come to its place.
    written: Option<R::File>,
    replaces: bool,
    // The number of the draft that was made last, of a new file.
    number: u8,
    // Why the system refused a call last.
    last_error: Option<io::Error>,
}

impl<'a, R: Files, A: Allocator + Copy> RealDisk<'a, R, A> {
    /// The system's files. It takes no memory, and makes no call.
    pub fn new(alloc: A, runtime: &'a R) -> RealDisk<'a, R, A> {
        RealDisk {
            alloc,
            runtime,
            written: None,
            replaces: true,
            number: 0,
            last_error: None,
        }
    }

    /// The same files, of which none takes the place of another: a rename to a name that something has fails. Drafts
    /// are made under names that nothing has ([`draft_path`]), in place of `PATH.new`; and nothing but they is removed.
    pub fn of_new_files(alloc: A, runtime: &'a R) -> RealDisk<'a, R, A> {
        let mut disk = RealDisk::new(alloc, runtime);
        disk.replaces = false;
        disk
    }

    /// How many drafts of the new file that was saved last were there already.
    pub fn other_drafts(&self) -> u8 {
        self.number.saturating_sub(1)
    }

    /// Why the system refused a call last, if it has refused one.
    pub fn last_error(&self) -> Option<io::Error> {
        self.last_error
    }

    // Keeps why a call was refused.
    fn kept<T>(&mut self, ended: io::Result<T>) -> io::Result<T> {
        if let Err(error) = &ended {
            self.last_error = Some(*error);
        }
        ended
    }

    // Makes a draft, and writes the bytes to it.
    fn write_draft(&mut self, draft: &str, bytes: &[u8]) -> io::Result<()> {
        let file = if self.replaces {
            create_replacement(self.runtime, draft)?
        } else {
            let (file, number) = create_draft(self.runtime, file_of(draft))?;
            self.number = number;
            file
        };
        self.written.insert(file).write_all(bytes)
    }

    // Gives the draft of a new file that file's name.
    fn name_new(&self, path: &str) -> io::Result<()> {
        match (&self.written, draft_path(path, self.number)) {
            (Some(file), Ok(draft)) => name_draft(self.runtime, file, draft.as_str(), path),
            _ => Err(io::Error::other("has no draft")),
        }
    }

    // Removes the draft of a new file, if it was made here and is still there.
    fn drop_new(&mut self, path: &str) {
        if let (Some(file), Ok(draft)) = (self.written.take(), draft_path(path, self.number)) {
            remove_own(self.runtime, &file, draft.as_str());
        }
    }

    // What is answered to a call that changes something, or settles it.
    fn done(&mut self, ended: io::Result<()>) -> Result<(), StoreFault> {
        self.kept(ended).or(Err(StoreFault::Device))
    }
}

// All keys that have a file in a folder, in no order.
fn keys_of<R: Files + Alloc + Clone + Drop, A: Allocator>(
    alloc: A,
    runtime: &R,
    folder: &str,
) -> io::Result<Vec<u16, A>> {
    let mut keys = Vec::new(alloc);
    let Some(entries) = found(read_dir(runtime, folder))? else {
        return Ok(keys);
    };
    let mut names: usize = 0;
    for entry in entries {
        let key = key_of(entry?.file_name().as_bytes());
        if names >= MOST_NAMES {
            return Err(io::Error::other("has too many names"));
        }
        names += 1;
        if let Some(key) = key {
            keys.push(key)?;
        }
    }
    Ok(keys)
}

// A sync of a folder that was only read. Of a folder that isn't there nothing is left to be done, nor of one whose file
// system syncs no folders (`EINVAL`).
fn settled(ended: io::Result<()>) -> io::Result<()> {
    match ended {
        Err(error) if matches!(error.kind(), ErrorKind::NotFound | ErrorKind::InvalidInput) => {
            Ok(())
        }
        ended => ended,
    }
}

impl<R: Files, A: Allocator + Copy> Disk for RealDisk<'_, R, A> {
    type Memory = A;

    ghost state = { λ _. unclaimed };

    fn read(&mut self, name: &str, limit: usize) -> Result<Option<Vec<u8, A>>, StoreFault> {
        let read = load_file(self.alloc, self.runtime, name, limit);
        Ok(self.kept(read)?)
    }

    fn write(&mut self, name: &str, bytes: &[u8]) -> Result<(), StoreFault> {
        self.written = None;
        let ended = self.write_draft(name, bytes);
        if self.replaces && ended.is_err() {
            self.written = None;
        }
        self.done(ended)
    }

    fn sync(&mut self, _name: &str) -> Result<(), StoreFault> {
        let synced = match &self.written {
            Some(file) => file.sync_all(),
            None => return Err(StoreFault::Device),
        };
        self.done(synced)
    }

    fn rename(&mut self, from: &str, to: &str) -> Result<(), StoreFault> {
        let ended = if self.replaces {
            fs::rename(self.runtime, from, to)
        } else {
            self.name_new(to)
        };
        self.done(ended)
    }

    fn remove(&mut self, name: &str) -> Result<(), StoreFault> {
        if !self.replaces {
            self.drop_new(file_of(name));
            return Ok(());
        }
        match fs::remove_file(self.runtime, name) {
            Err(error) if error.kind() == ErrorKind::NotFound => Ok(()),
            ended => self.done(ended),
        }
    }

    fn sync_entry(&mut self, name: &str) -> Result<(), StoreFault> {
        // The folder of what has just got its name is there, or else that is gone.
        let synced = match self.written.take() {
            Some(_) => sync_folder(self.runtime, folder_of(name)),
            None => sync_folder_of(self.runtime, name),
        };
        self.done(synced)
    }

    fn settle_entry(&mut self, name: &str) -> Result<(), StoreFault> {
        self.done(settled(sync_folder_of(self.runtime, name)))
    }
}

impl<R: Files + Alloc + Clone + Drop, A: Allocator + Copy> Folders for RealDisk<'_, R, A> {
    fn make_folder(&mut self, folder: &str) -> Result<(), StoreFault> {
        match fs::create_dir(self.runtime, folder) {
            Err(error) if error.kind() == ErrorKind::AlreadyExists => {}
            made => self.done(made)?,
        }
        self.done(sync_folder_of(self.runtime, folder))
    }

    fn keys(&mut self, folder: &str, limit: usize) -> Result<Vec<u16, A>, StoreFault> {
        let listed = keys_of(self.alloc, self.runtime, folder);
        let mut keys = self.kept(listed)?;
        keys.sort_unstable();
        // A name that is renamed while the folder is listed may come twice.
        keys.dedup();
        keys.truncate(limit.saturating_add(1));
        Ok(keys)
    }

    fn settle_folder(&mut self, folder: &str) -> Result<(), StoreFault> {
        let path = with_end(folder, "/")?;
        self.done(settled(sync_folder(self.runtime, path.as_str())))
    }
}
