//! A file system over the system's own that knows which calls are to come: the first other call fails, and so does the
//! one that a test chooses. It moves few bytes at a time, and lists the names that a test makes up.

use crate::files::{listing_of, steps_of};
use std::alloc::{Allocator, Global};
use std::cell::Cell;
use std::fs::{File, Metadata, OpenFile, OpenOptions, Permissions};
use std::io;
use std::io::{ErrorKind, Read, Seek, SeekFrom, Write};
use std::rc::Rc;
use std::rt::Files;

// How many bytes a read or a write moves.
const MOST_BYTES: usize = 2;

// The case whose calls are to come, by its place among all, or any other number where any call may come; how many calls
// pass before one fails; and by which error.
pub type Plan = (usize, usize, ErrorKind);

// The plan, how many calls came, and what each folder lists, by its place among all listings.
#[derive(Drop)]
struct Script {
    plan: Cell<Plan>,
    came: Cell<usize>,
    listing: Cell<usize>,
}

// Whether the step at a place is this call.
fn is_step(steps: &str, place: usize, call: &str, path: &str) -> bool {
    let Some(step) = steps.split(',').nth(place) else {
        return false;
    };
    let step = step.trim();
    match step.split_once(' ') {
        Some((name, end)) => name == call && path.ends_with(end),
        None => step == call,
    }
}

impl Script {
    // Whether this call may come now. A draft may be removed after the call that failed.
    fn comes(&self, call: &str, path: &str) -> io::Result<()> {
        let (case, passes, error) = self.plan.get();
        let steps = steps_of(case);
        let place = self.came.get();
        self.came.set(place.saturating_add(1));
        let may_come = if place > passes && call == "remove" && path.ends_with(".new") {
            true
        } else {
            place != passes && is_step(steps, place, call, path)
        };
        if steps.is_empty() || may_come {
            Ok(())
        } else {
            Err(io::Error::from(error))
        }
    }
}

// The file system under a script.
#[derive(Drop)]
pub struct Scripted {
    system: HostRuntime,
    script: Rc<Script>,
}

impl Scripted {
    // The system's files: any call may come, and each folder has the first listing.
    pub fn new(system: HostRuntime) -> io::Result<Scripted> {
        let script = Script {
            plan: Cell::new((usize::MAX, 0, ErrorKind::PermissionDenied)),
            came: Cell::new(0),
            listing: Cell::new(0),
        };
        let script = Rc::new(system.alloc(), script)?;
        Ok(Scripted { system, script })
    }

    pub fn alloc(&self) -> Global {
        self.system.alloc()
    }

    // From now on this is to come.
    pub fn begin(&self, plan: Plan) {
        self.script.plan.set(plan);
        self.script.came.set(0);
    }

    // From now on each folder has this listing.
    pub fn list(&self, listing: usize) {
        self.script.listing.set(listing);
    }
}

// An open file.
#[derive(Drop)]
pub struct ScriptedFile {
    system: File,
    script: Rc<Script>,
}

// The names of an open folder, which are still to be listed that many times.
#[derive(Drop)]
pub struct Names {
    script: Rc<Script>,
    left: u32,
}

// What a call answers that no store makes.
fn unsupported<T>() -> io::Result<T> {
    Err(io::Error::from(ErrorKind::Unsupported))
}

impl Read for Names {
    fn read(&mut self, buf: &mut [u8]) -> io::Result<usize> {
        self.script.comes("names", "")?;
        let (names, _) = listing_of(self.script.listing.get());
        let count = names.len();
        if self.left == 0 || buf.len() < count {
            return Ok(0);
        }
        self.left -= 1;
        buf[..count].copy_from_slice(names);
        Ok(count)
    }
}

impl Read for ScriptedFile {
    fn read(&mut self, buf: &mut [u8]) -> io::Result<usize> {
        self.script.comes("read", "")?;
        let count = buf.len().min(MOST_BYTES);
        self.system.read(&mut buf[..count])
    }
}

impl Write for ScriptedFile {
    fn write(&mut self, buf: &[u8]) -> io::Result<usize> {
        self.script.comes("write", "")?;
        let count = buf.len().min(MOST_BYTES);
        self.system.write(&buf[..count])
    }

    #[rattlefmt::skip]
    fn flush(&mut self) -> io::Result<()> { unsupported() }
}

impl Seek for ScriptedFile {
    #[rattlefmt::skip]
    fn seek(&mut self, _to: SeekFrom) -> io::Result<u64> { unsupported() }
}

impl OpenFile for ScriptedFile {
    fn metadata(&self) -> io::Result<Metadata> {
        self.script.comes("look", "")?;
        self.system.metadata()
    }

    #[rattlefmt::skip]
    fn set_len(&self, _size: u64) -> io::Result<()> { unsupported() }

    fn sync_all(&self) -> io::Result<()> {
        self.script.comes("sync", "")?;
        self.system.sync_all()
    }

    #[rattlefmt::skip]
    fn sync_data(&self) -> io::Result<()> { unsupported() }

    fn set_permissions(&self, mode: Permissions) -> io::Result<()> {
        self.script.comes("mode", "")?;
        self.system.set_permissions(mode)
    }
}

impl Files for Scripted {
    type File = ScriptedFile;

    type Dir = Names;

    fn open_file(&self, how: &OpenOptions, path: &str) -> io::Result<ScriptedFile> {
        self.script.comes("open", path)?;
        Ok(ScriptedFile {
            system: self.system.open_file(how, path)?,
            script: self.script.clone()?,
        })
    }

    fn open_dir(&self, path: &str) -> io::Result<Names> {
        self.script.comes("list", path)?;
        self.system.metadata(path)?;
        Ok(Names {
            script: self.script.clone()?,
            left: listing_of(self.script.listing.get()).1,
        })
    }

    fn metadata(&self, path: &str) -> io::Result<Metadata> {
        self.script.comes("look", path)?;
        self.system.metadata(path)
    }

    #[rattlefmt::skip]
    fn symlink_metadata(&self, _path: &str) -> io::Result<Metadata> { unsupported() }

    #[rattlefmt::skip]
    fn copy(&self, _from: &str, _to: &str) -> io::Result<u64> { unsupported() }

    fn rename(&self, from: &str, to: &str) -> io::Result<()> {
        self.script.comes("rename", from)?;
        self.system.rename(from, to)
    }

    fn remove_file(&self, path: &str) -> io::Result<()> {
        self.script.comes("remove", path)?;
        self.system.remove_file(path)
    }

    fn create_dir(&self, path: &str) -> io::Result<()> {
        self.script.comes("make", path)?;
        self.system.create_dir(path)
    }

    #[rattlefmt::skip]
    fn remove_dir(&self, _path: &str) -> io::Result<()> { unsupported() }

    #[rattlefmt::skip]
    fn remove_dir_all<B: Allocator>(&self, _alloc: B, _path: &str) -> io::Result<()> { unsupported() }
}
