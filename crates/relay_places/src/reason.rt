//! Why a command does not find or does not get its files.

use crate::place::Place;

/// What is said of a desk's path where something else is to be made.
pub(crate) const IS_DESK: &str = "a desk is there, with its files in the .pages folder";

/// Why a command does not find or does not get its files, or what is to be said of them.
#[derive(Clone, Copy)]
pub(crate) enum Reason {
    NoDesk,
    NewDesk,
    LostLink,
    LostFolder,
    NoPlainFile,
    /// What is to be said of it is kept already.
    Refused,
    OwnEnding,
    /// It is to be made at the path of a desk.
    IsDesk,
    /// Something is where its saves write first.
    DraftTaken,
    SecondName,
    Busy,
    NoLock,
    LostLock,
    /// There was no folder for it, or nothing at all when it was first looked at.
    NotLocked,
    Taken,
}

impl Reason {
    /// The path that is at fault, and what is said of it.
    pub(crate) fn at(self, place: &Place) -> (&str, &'static str) {
        let (file, folder) = (place.named.as_str(), place.folder.as_str());
        let (lock, draft) = (place.lock.as_str(), place.draft.as_str());
        match self {
            Reason::NoDesk => (file, "there is no desk"),
            Reason::NewDesk => (file, "a new desk was made"),
            Reason::LostLink => (file, "a link that leads nowhere"),
            Reason::LostFolder => (folder, "a link that leads nowhere"),
            Reason::NoPlainFile => (file, "not a plain file"),
            Reason::Refused => (file, "can't be looked at"),
            Reason::OwnEnding => (
                file,
                "paths that end in .new, .lock or .pages, or lead into a .pages folder, are reserved",
            ),
            Reason::IsDesk => (file, IS_DESK),
            Reason::DraftTaken => (draft, "something is there already"),
            Reason::SecondName => (file, "has a second name"),
            Reason::Busy => (file, "another program is at work there"),
            Reason::NoLock => (lock, "can't be locked"),
            Reason::LostLock => (lock, "was removed or replaced"),
            Reason::NotLocked => (file, "nothing can be saved there"),
            Reason::Taken => (file, "something is there already"),
        }
    }
}
