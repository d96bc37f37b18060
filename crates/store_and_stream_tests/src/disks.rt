//! What a stop of the machine leaves on the worst disk that the definitions allow: of a save, after a load, and of four
//! ways to save that are wrong.

use dm_disk::{Disk, FileStore};
use dm_store::{Kept, Store, StoreFault, load_settled};
use std::alloc::{AllocError, Global};
use test_helpers::{KeepingNames, MemDisk, Stopping};

// Which contents a stop may leave in the file: the old one, the new one, a part of that, no bytes, and no file.
type Leaves = [bool; 5];

const OLD: Leaves = [true, false, false, false, false];

const NEW: Leaves = [false, true, false, false, false];

const EITHER: Leaves = [true, true, false, false, false];

const ANYTHING: Leaves = [true; 5];

// What a stop may leave now.
fn what_is_left(disk: &MemDisk) -> Leaves {
    [
        disk.may_leave("ledger", Some(b"old")),
        disk.may_leave("ledger", Some(b"new")),
        disk.may_leave("ledger", Some(b"ne")),
        disk.may_leave("ledger", Some(b"")),
        disk.may_leave("ledger", None),
    ]
}

// A store in the file of a disk.
fn store_over<D: Disk>(alloc: Global, disk: D) -> Result<FileStore<D>, AllocError> {
    Ok(FileStore::new(disk, String::from_str(alloc, "ledger")?))
}

// A disk on which a store has saved the old content, if it could, and whose machine stops at the call after so many.
fn stopping(alloc: Global, passes: u32, kept: Kept) -> Result<Stopping<MemDisk>, AllocError> {
    let mut store = store_over(alloc, MemDisk::new(alloc))?;
    let _ended = store.replace(b"old");
    Ok(Stopping::new(store.into_disk(), passes, kept))
}

// Whether a store saves the new content on a disk that stops, and the disk then.
fn saved(alloc: Global, passes: u32, kept: Kept) -> Result<(bool, MemDisk), AllocError> {
    let mut store = store_over(alloc, stopping(alloc, passes, kept)?)?;
    let is_done = store.replace(b"new").is_ok();
    Ok((is_done, store.into_disk().into_inner()))
}

// Whether a load that is settled gives the new content, and the disk then.
fn loaded(alloc: Global, disk: MemDisk) -> Result<(bool, MemDisk), AllocError> {
    let mut store = store_over(alloc, disk)?;
    let is_new =
        matches!(load_settled(&mut store, 9), Ok(Some(bytes)) if bytes.as_slice() == b"new".as_slice());
    Ok((is_new, store.into_disk()))
}

// A save of four calls: how many of them pass; whether the call after these is still made; and what may be left.
const STOPS: &[(u32, Kept, Leaves)] = &[
    (0, Kept::Old, OLD),
    (0, Kept::New, OLD),
    (1, Kept::Old, OLD),
    (1, Kept::New, OLD),
    (2, Kept::Old, OLD),
    (2, Kept::New, EITHER),
    (3, Kept::Old, EITHER),
    (3, Kept::New, NEW),
    (4, Kept::Old, NEW),
];

// A save whose machine stops at each of its calls. A load that is settled then gives what no stop takes back.
#[test]
fn a_stop_leaves_the_old_or_the_new(rt: HostRuntime) {
    for (passes, kept, wanted) in STOPS.iter() {
        let (is_done, disk) = saved(rt.alloc(), *passes, *kept).expect(&rt, "it is done");
        assert!(rt; is_done == (*passes == 4) && what_is_left(&disk) == *wanted);
        let (is_new, disk) = loaded(rt.alloc(), disk).expect(&rt, "it is done");
        let left = if is_new { NEW } else { OLD };
        assert!(rt; what_is_left(&disk) == left && (is_new || *wanted != NEW));
    }
}

// Over a disk that keeps names the first save is done, and none after it.
#[test]
fn a_kept_name_is_given_once(rt: HostRuntime) {
    let disk = KeepingNames::new(MemDisk::new(rt.alloc()));
    let mut store = store_over(rt.alloc(), disk).expect(&rt, "it is done");
    assert!(rt; store.replace(b"old") == Ok(()));
    assert!(rt; store.replace(b"new") == Err(StoreFault::Device));
    let found = store.load(9).expect(&rt, "it is done");
    assert!(rt; found.as_deref() == Some(b"old".as_slice()));
}

// A call of a save.
enum Step {
    Write(&'static str),
    Sync(&'static str),
    Rename,
    SyncEntry,
}

fn save_by<D: Disk>(disk: &mut D, steps: &[Step]) -> Result<(), StoreFault> {
    for step in steps {
        match step {
            Step::Write(name) => disk.write(*name, b"new")?,
            Step::Sync(name) => disk.sync(*name)?,
            Step::Rename => disk.rename("ledger.new", "ledger")?,
            Step::SyncEntry => disk.sync_entry("ledger")?,
        }
    }
    Ok(())
}

// A wrong way to save, how many of its calls pass, whether it is done then, and what may be left: within the save or
// after it anything, or the old content after it.
#[rattlefmt::skip]
const WRONG: &[(&[Step], u32, bool, Leaves)] = &[
    // In place; synced after the rename; not synced; with no sync of the folder.
    (&[Step::Write("ledger"), Step::Sync("ledger"), Step::SyncEntry], 1, false, ANYTHING),
    (&[Step::Write("ledger.new"), Step::Rename, Step::Sync("ledger"), Step::SyncEntry], 2, false, ANYTHING),
    (&[Step::Write("ledger.new"), Step::Rename, Step::SyncEntry], 9, true, ANYTHING),
    (&[Step::Write("ledger.new"), Step::Sync("ledger.new"), Step::Rename], 9, true, EITHER),
];

#[test]
fn a_stop_spoils_a_wrong_save(rt: HostRuntime) {
    for (steps, passes, is_done, wanted) in WRONG.iter() {
        let mut disk = stopping(rt.alloc(), *passes, Kept::Old).expect(&rt, "it is done");
        assert!(rt; save_by(&mut disk, steps).is_ok() == *is_done);
        assert!(rt; what_is_left(&disk.into_inner()) == *wanted);
    }
}
