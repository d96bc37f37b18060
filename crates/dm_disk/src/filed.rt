//! What is kept on a disk under a path: a store in a file, or a set in a folder.

ghost use Rattle.std.specs.Prelude.{◌≡◌};
ghost use Rattle.std.specs.String.{string_bytes};
ghost use Rattle.dm_disk.specs.Disk.{Filed};

use crate::disk::Disk;
use std::alloc::{Allocator, Global};
use std::marker::Model;

/// A path of a disk, with a store in its file, or a set in its folder. Both are honest if the disk is.
///
/// **A store.** A `replace` writes the bytes to the file `PATH.new`, syncs it, renames it to `PATH`, and syncs the
/// folder. So whenever the machine stops the file holds the old or the new bytes, and the new ones once the `replace`
/// is done. The file `PATH.new` is made anew: what is there, as a link or what a stop has left, is never read or
/// written; it has the mode of the file that it replaces. A `replace` that fails takes it away, if it can. So `PATH` is
/// a plain file after a `replace`, which makes no folder. No third file is touched.
///
/// A `load` answers `None` if the file or its folder isn't there. A `settle` syncs the folder, so that no stop takes
/// back what was loaded before of a file whose bytes are on the disk, as those of a save are. It does not sync the
/// bytes: those of a file that somebody else put there, and did not sync, a stop may take back.
///
/// **A set.** The file of a key has the key as its name, in four lower-case hexadecimal digits, and is loaded and
/// replaced as that of a store. Files of other names are not looked at. A folder that isn't there has no keys, and the
/// first `replace` makes it (but not the folders that it lies in) and brings its entry to the disk, also if it is
/// there; if `keys` has found a key, a `replace` has done so before. A `remove` takes the draft away first, and brings
/// the key's entry to the disk, also if no file has it. Only `settle` brings those of all keys there: what `keys` and
/// `load` gave before it, no stop takes back.
///
/// They take no memory but the disk's. A path that is longer than any that the system takes is a device fault.
#[derive(Drop)]
pub struct Filed<D: Disk, K, A: Allocator = Global> {
    pub(crate) disk: D,
    pub(crate) path: String<A>,
    pub(crate) kind: K,
}

/// That a path is that of a file.
#[derive(Clone, Copy, Default)]
pub struct AtFile;

/// That a path is that of a folder.
#[derive(Clone, Copy, Default)]
pub struct AtFolder {
    // Whether it is made, and its entry on the disk, by this set or by the saves of the keys that it has listed.
    pub(crate) is_made: bool,
}

/// A store in a file of a disk.
pub type FileStore<D, A = Global> = Filed<D, AtFile, A>;

/// A set of stores in a folder of a disk, with a file for each key.
pub type FileSet<D, A = Global> = Filed<D, AtFolder, A>;

impl<D: Disk, K, A: Allocator> Model for Filed<D, K, A> {
    ghost Value = { Filed D };

    ghost view = { λ f. record { disk = f.disk; path = string_bytes f.path } };
}

impl<D: Disk, K: Default, A: Allocator> Filed<D, K, A> {
    /// What is at `path` of the disk, where nothing need be. It makes no call.
    pub fn new(disk: D, path: String<A>) -> Filed<D, K, A>
        ensures { result ≡ record { disk = disk; path = string_bytes path } }
    {
        let kind = K::default();
        Filed { disk, path, kind }
    }

    /// The disk, as the calls left it.
    pub fn into_disk(self) -> D
    where
        K: Drop,
        ensures { result ≡ self.disk }
    {
        self.disk
    }
}
