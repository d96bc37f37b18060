//! The disk of a command's files, which asks for their lock.

ghost use Rattle.std.specs.Prelude.{◌≡◌};

use crate::command_files::CommandFiles;
use crate::guarded::Guarded;
use crate::place::Access;
use crate::system_disk::{KeepsError, SystemDisk};
use dm_disk::{Disk, FileSet, FileStore, Folders};
use dm_store::StoreFault;
use std::alloc::AllocError;
use std::rc::Rc;

/// The disk of a command's files, which asks for their lock. What [`CommandFiles`] refuses is a device fault. It looks
/// at the lock right before each call that makes, renames or removes.
#[derive(Drop)]
pub struct Locked<'a, D> {
    within: Guarded<D>,
    pub(crate) done: Done,
    /// The files of the command. Their lock ends last.
    pub(crate) files: Rc<CommandFiles<'a>>,
}

/// What a disk of a command's files was asked for, and what came of it.
#[derive(Drop)]
pub(crate) struct Done {
    /// Whether it has made a desk where nothing was.
    pub(crate) has_made_desk: bool,
    /// Whether the folder could not be listed.
    pub(crate) has_no_list: bool,
    /// The path of the file that was loaded last, if one was.
    pub(crate) loaded: Option<String>,
}

// Nothing was asked for yet.
const NOTHING_DONE: Done = Done {
    has_made_desk: false,
    has_no_list: false,
    loaded: None,
};

/// The system's disk, which asks for the lock of a command's files.
pub(crate) type LockedDisk<'a> = Locked<'a, SystemDisk<'a>>;

impl<'a> LockedDisk<'a> {
    // A disk of a command's files.
    fn new(files: &Rc<CommandFiles<'a>>, disk: SystemDisk<'a>) -> Result<Self, AllocError> {
        Ok(Locked {
            within: Guarded::new(disk),
            done: NOTHING_DONE,
            files: files.clone()?,
        })
    }
}

impl<D: KeepsError> Locked<'_, D> {
    // The end of a call on the file at a path. Why the system has refused it, if it has, is kept.
    fn told<T>(&self, path: &str, ended: Result<T, StoreFault>) -> Result<T, StoreFault>
        ensures { result ≡ ended }
    {
        if let (Err(StoreFault::Device), Some(error)) = (&ended, self.within.last_error()) {
            self.files.keep(path, &error);
        }
        ended
    }
}

/// The ledger or the joint file of a command. A new ledger takes the place of nothing.
pub(crate) fn file_of<'a>(
    files: &Rc<CommandFiles<'a>>,
) -> Result<FileStore<LockedDisk<'a>>, AllocError> {
    let path = files.place.file.clone()?;
    let disk = match files.place.access {
        Access::Creates => SystemDisk::of_new_files(files.rt),
        _ => SystemDisk::new(files.rt),
    };
    Ok(FileStore::new(Locked::new(files, disk)?, path))
}

/// The folder of a command.
pub(crate) fn folder_of<'a>(
    files: &Rc<CommandFiles<'a>>,
) -> Result<FileSet<LockedDisk<'a>>, AllocError> {
    let path = files.place.folder.clone()?;
    let disk = SystemDisk::new(files.rt);
    Ok(FileSet::new(Locked::new(files, disk)?, path))
}

impl<D: Disk + KeepsError> Disk for Locked<'_, D> {
    type Memory = D::Memory;

    ghost state = { λ locked. D.state locked.within.disk };

    fn read(&mut self, name: &str, limit: usize) -> Result<Option<Vec<u8, D::Memory>>, StoreFault> {
        let entered = self.files.may_load(name)?;
        self.done.loaded = String::from_str(self.files.rt.alloc(), name).ok();
        let read = self.within.read(&self.files.place, entered, name, limit);
        self.told(name, read)
    }

    fn write(&mut self, name: &str, bytes: &[u8]) -> Result<(), StoreFault> {
        let lock = self.files.may_save(name)?;
        let written = self.within.write(&self.files.place, lock, name, bytes);
        self.told(self.files.written_at(name), written)
    }

    fn sync(&mut self, name: &str) -> Result<(), StoreFault> {
        let synced = self.within.sync(name);
        self.told(self.files.written_at(name), synced)
    }

    fn rename(&mut self, from: &str, to: &str) -> Result<(), StoreFault> {
        let files = &*self.files;
        let lock = files.may_save(to)?;
        if !files.place.has(from) {
            return Err(StoreFault::Device);
        }
        let renamed = self.within.rename(&files.place, lock, from, to);
        files.look_at_new(renamed.is_ok(), self.within.other_drafts());
        self.told(to, renamed)
    }

    fn remove(&mut self, name: &str) -> Result<(), StoreFault> {
        let lock = self.files.may_save(name)?;
        let removed = self.within.remove(&self.files.place, lock, name);
        self.told(name, removed)
    }

    fn sync_entry(&mut self, name: &str) -> Result<(), StoreFault> {
        let synced = self.within.sync_entry(name);
        self.told(name, synced)
    }

    fn settle_entry(&mut self, name: &str) -> Result<(), StoreFault> {
        let settled = self.within.settle_entry(name);
        self.told(name, settled)
    }
}

impl<D: Folders + KeepsError> Folders for Locked<'_, D> {
    fn make_folder(&mut self, folder: &str) -> Result<(), StoreFault> {
        let lock = self.files.may_save(folder)?;
        let is_new = self.files.has_no_desk();
        let made = self.within.make_folder(&self.files.place, lock, folder);
        self.done.has_made_desk |= is_new && made.is_ok();
        self.told(folder, made)
    }

    fn keys(&mut self, folder: &str, limit: usize) -> Result<Vec<u16, D::Memory>, StoreFault> {
        let entered = self.files.may_load(folder)?;
        let keys = self.within.keys(&self.files.place, entered, folder, limit);
        self.done.has_no_list = matches!(&keys, Err(StoreFault::Device));
        if let Ok(keys) = &keys {
            self.files.look_at_count(keys.len(), limit);
        }
        self.told(folder, keys)
    }

    fn settle_folder(&mut self, folder: &str) -> Result<(), StoreFault> {
        let settled = self.within.settle_folder(folder);
        self.told(folder, settled)
    }
}
