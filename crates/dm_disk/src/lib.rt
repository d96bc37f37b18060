//! Stores in the files of a disk, and the disk of the system.
//!
//! [`FileStore`] is a store in a file of a [`Disk`], whose contract (`specs/Disk.antt`) says what a reader finds and
//! what a stop of the machine may leave. Proved over every disk that keeps it: the store is honest if the disk is;
//! whenever the machine stops in a save, the file holds the old or the new bytes, whole, and the new ones once the save
//! has answered `Ok`; a save touches no file but its own and the draft beside it; and no stop takes back what a load
//! gave of a file whose bytes are on the disk, as those of a save are. So a stop leaves what a store under an open plan
//! may hold. [`FileSet`] is a set in a folder of a disk that has the calls of [`Folders`], and the same is proved of
//! the file of each key; a remove leaves the old bytes or none, and none once it has answered `Ok`.
//!
//! Where a disk keeps a name that a file has, a save under it is proved to fail, and to leave that file as it is.
//!
//! [`RealDisk`] is the system's own files: it claims nothing. That its few lines do what the contract says is trusted,
//! and tested; so is the sync by which a folder that was made is kept, which no clause speaks of.
#![tactic(auto)]

mod disk;
mod file_set;
mod file_store;
mod filed;
mod files;
mod key_files;
mod new_file;
mod real_disk;

pub use disk::{Disk, Folders};
pub use filed::{AtFile, AtFolder, FileSet, FileStore, Filed};
pub use files::folder_of;
pub use key_files::{PathText, key_of, path_of};
pub use new_file::{MOST_DRAFTS, draft_path, is_saved};
pub use real_disk::RealDisk;
