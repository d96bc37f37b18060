//! What is at the paths of a line: a ledger or a desk at each, and files of images. [`Places`] gives them out, and
//! [`RealPlaces`] are the system's own, which are locked while a command saves to them.
//!
//! The files of a command, in the order in which it comes to them. Nothing is opened before its first load, so what can
//! be said without a file is said without one. Then a command that may save locks PATH.lock, or PATH.pages.lock at a
//! desk, and holds it until its output is out. It loads PATH, and at a desk the files in the folder PATH.pages. It
//! saves to NAME.new, or for a new ledger NAME.1.new, looks whether the lock file is still its own, and gives that file
//! the name NAME. What a command can't have is a device fault to it, and a line `relay: PATH: ..` on the standard error
//! says why.
//!
//! Proved of the disk behind a lock: it is a disk like the one within, whose calls may fail. Each of its calls that
//! makes, writes, renames or removes a file takes the lock that guards it: the one beside this ledger, or beside this
//! desk's folder (`Guards` of `specs/Places.antt`). By its type this command took that lock, and looked at it before
//! that call; but drafts that a stop has left a file as names are removed right after the lock was taken. Whether a
//! command locks depends on what it does, and on what it finds there (`locks`). Each call that loads a file or lists a
//! folder comes after that: it takes what was found, and the lock, if there is to be one (`Enters`). That `flock` keeps
//! others out is trusted. What is found, and what the look says, is in no clause.
#![tactic(auto)]

mod command_files;
mod guarded;
mod lock;
mod locked;
mod mem_places;
mod new_place;
mod note;
mod notes;
mod place;
mod places;
mod real_file;
mod real_places;
mod reason;
mod saved_output;
mod system_disk;
mod watched;

pub use mem_places::{MemPlace, MemPlaces};
pub use note::Note;
pub use notes::{note_of_desk, note_of_input, show_note};
pub use place::{Access, Named};
pub use places::{Closed, Places, SavedNew};
pub use real_places::RealPlaces;
pub use watched::Watched;
