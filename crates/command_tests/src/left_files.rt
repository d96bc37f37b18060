//! The files on a disk, and those that a stop may leave there.

use dm_disk::Disk;
use dm_store::StoreFault;
use std::alloc::{AllocError, Global};
use test_helpers::MemDisk;

/// The file of a ledger, or the joint file of a desk.
pub const STORE: &str = "store";

/// The folder of a desk's files, and the first of them.
pub const SET: &str = "pages";

pub const PAGES: &str = "pages/0000";

// The files that the commands save to here, each before its draft.
#[rattlefmt::skip]
const NAMES: [&str; 6] = [STORE, "store.new", PAGES, "pages/0000.new", "pages/0002", "pages/0002.new"];

// More bytes than a file has.
const MOST_BYTES: usize = 999;

// The bytes of a file, or none where no file is.
type Content = Option<Vec<u8>>;

/// The contents of these files, in their order.
pub type Files = Vec<Content>;

// The content at a place, lent.
fn content_at(contents: &[Content], place: usize) -> Option<&[u8]> {
    contents.get(place)?.as_deref()
}

/// What a reader finds on a disk.
pub fn files_on(alloc: Global, disk: &mut MemDisk) -> Result<Files, StoreFault> {
    let mut files = Vec::new(alloc);
    for name in NAMES {
        let content = disk.read(name, MOST_BYTES)?;
        files.push(content).or(Err(StoreFault::Memory))?;
    }
    Ok(files)
}

/// Puts a file on a disk, which keeps it whenever the machine stops.
pub fn keep(disk: &mut MemDisk, name: &str, bytes: &[u8]) -> Result<(), StoreFault> {
    disk.write(name, bytes)?;
    disk.sync(name)?;
    disk.sync_entry(name)?;
    Ok(())
}

// Whether a content is among these.
fn has(contents: &[Content], content: Option<&[u8]>) -> bool {
    for one in contents {
        if one.as_deref() == content {
            return true;
        }
    }
    false
}

// Adds a content that a stop may leave under a name, if it isn't among those that were added.
fn add(
    alloc: Global,
    left: &mut Vec<Content>,
    disk: &MemDisk,
    name: &str,
    content: Option<&[u8]>,
) -> Result<(), AllocError> {
    if !disk.may_leave(name, content) || has(left, content) {
        return Ok(());
    }
    let copy = match content {
        Some(bytes) => Some(bytes.to_vec(alloc)?),
        None => None,
    };
    left.push(copy)?;
    Ok(())
}

// The first half of a content.
fn half_of(content: Option<&[u8]>) -> Option<&[u8]> {
    let bytes = content?;
    bytes.get(..bytes.len() / 2)
}

// What a stop may leave under the name at a place: of no file, the old content, the new, the draft's, a part of that,
// and zeros.
fn left_at(
    alloc: Global,
    disk: &MemDisk,
    old: &Files,
    new: &Files,
    place: usize,
) -> Result<Vec<Content>, AllocError> {
    let mut left = Vec::new(alloc);
    let Some(name) = NAMES.get(place) else {
        return Ok(left);
    };
    let file = place & !1;
    add(alloc, &mut left, disk, *name, None)?;
    for content in [
        content_at(old, place),
        content_at(new, place),
        content_at(old, file),
        content_at(new, file),
        content_at(new, file | 1),
    ] {
        add(alloc, &mut left, disk, *name, content)?;
        add(alloc, &mut left, disk, *name, half_of(content))?;
    }
    add(alloc, &mut left, disk, *name, Some(b"\0\0\0\0\0\0\0"))?;
    Ok(left)
}

/// What a stop may leave under each name.
#[derive(Drop)]
pub struct LeftFiles {
    contents: Vec<Vec<Content>>,
}

impl LeftFiles {
    /// What a stop may leave on a disk where a reader found the one files before it and finds the others now.
    pub fn new(
        alloc: Global,
        disk: &MemDisk,
        old: &Files,
        new: &Files,
    ) -> Result<LeftFiles, StoreFault> {
        let mut contents = Vec::new(alloc);
        for place in 0..NAMES.len() {
            let left = left_at(alloc, disk, old, new, place)?;
            contents.push(left).or(Err(StoreFault::Memory))?;
        }
        Ok(LeftFiles { contents })
    }

    /// How many ways there are: each of a file with each of each other; and with them, in turn, those of the drafts.
    pub fn count(&self) -> usize {
        let mut files = 1usize;
        let mut drafts = 1usize;
        for (place, contents) in self.contents.iter().enumerate() {
            if place % 2 == 0 {
                files = files.saturating_mul(contents.len());
            } else {
                drafts = drafts.max(contents.len());
            }
        }
        files.max(drafts)
    }

    /// A disk with the files that are left in one of these ways, which keeps them whenever the machine stops.
    pub fn way(&self, alloc: Global, number: usize) -> Result<MemDisk, StoreFault> {
        let mut disk = MemDisk::new(alloc);
        let mut rest = number;
        for (place, name) in NAMES.iter().enumerate() {
            let Some(contents) = self.contents.get(place) else {
                break;
            };
            let count = contents.len().max(1);
            let at = if place % 2 == 0 { rest } else { number };
            if let Some(bytes) = content_at(contents, at % count) {
                keep(&mut disk, *name, bytes)?;
            }
            if place % 2 == 0 {
                rest /= count;
            }
        }
        Ok(disk)
    }
}
