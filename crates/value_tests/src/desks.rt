//! Desks over sets in memory: labels that are scanned, pages that come and go, and what is held. Sets of several files
//! on which a desk is opened, and on which none is.

use crate::labels::page_of_bytes;
use dm_append_label::{FileId, seal};
use dm_assembly_desk::{
    Accepted, AskFault, Desk, ForgetFault, ImportFault, Imported, Kind, MoveFault, ScanFault,
    move_pages,
};
use dm_encodation::Scheme;
use dm_finder_frame::Grid;
use dm_size::Size;
use dm_store::{MemSet, MemStore, NextSave, StoreSet};
use std::alloc::{AllocError, Global};
use std::process::Abort;

type MemDesk = Desk<MemSet>;

// The file of the document 0, of whose two pages the second is held: 34.
const SECOND: &[u8] = b"DMPG\x02\x01\x01\x02\x00\x02\x00\x0234";

// The file of the document 0 with both pages.
const WHOLE: &[u8] = b"DMPG\x02\x01\x01\x02\x00\x03\x00\x0212\x00\x0234";

fn id_of(rt: &impl Abort, number: u16) -> FileId {
    FileId::of_number(number).expect(rt, "an ID")
}

// A page, by its document, its number, the number of pages and its bytes.
type Scan = (u16, u8, u8, &'static [u8]);

// The label of a page, of side 12 in ASCII.
fn label(alloc: Global, (number, m, n, bytes): Scan) -> Option<Grid> {
    let page = page_of_bytes(alloc, number, m, n, bytes)?;
    seal(alloc, &page, Size::Side12, Scheme::Ascii).ok()
}

// Whether the desk answers so to the label of a page.
fn answers<S: StoreSet>(
    alloc: Global,
    desk: &mut Desk<S>,
    scan: Scan,
    answer: Result<Kind, ScanFault>,
) -> bool {
    let Some(grid) = label(alloc, scan) else {
        return false;
    };
    match desk.accept_lent(&grid.lend()) {
        Ok(Accepted { id, m, n, kind }) => {
            (id.number(), m, n) == (scan.0, scan.1, scan.2) && answer == Ok(kind)
        }
        Err(fault) => answer == Err(fault),
    }
}

// The desk with room for this many documents over a set.
fn opened(rt: &impl Abort, alloc: Global, set: MemSet, capacity: u16) -> MemDesk {
    let opened = Desk::open(alloc, set, capacity);
    opened.ok().expect(rt, "it is opened")
}

// Whether the document is given with these bytes.
fn gives<S: StoreSet>(desk: &Desk<S>, id: FileId, bytes: &[u8]) -> bool {
    match desk.document(id) {
        Ok(document) => document.as_slice() == bytes,
        Err(_) => false,
    }
}

// Whether these bytes are the export.
fn exports<S: StoreSet>(desk: &Desk<S>, id: FileId, bytes: &[u8]) -> bool {
    match desk.export(id) {
        Ok(file) => file.as_slice() == bytes,
        Err(_) => false,
    }
}

// The labels of two documents in any order, and some that disagree with these or find no room.
const SCANS: [(Scan, Result<Kind, ScanFault>); 14] = [
    ((5, 3, 3, b"56"), Ok(Kind::New)),
    ((3, 2, 2, b"90"), Ok(Kind::New)),
    ((5, 3, 3, b"56"), Ok(Kind::Again)),
    ((3, 1, 2, b"78"), Ok(Kind::Complete)),
    ((5, 3, 3, b"57"), Err(ScanFault::Conflict)),
    ((5, 3, 3, b"5"), Err(ScanFault::Conflict)),
    ((5, 1, 2, b"12"), Err(ScanFault::Conflict)),
    ((5, 3, 4, b"56"), Err(ScanFault::Conflict)),
    ((1, 1, 2, b"12"), Err(ScanFault::Full)),
    ((5, 1, 3, b"12"), Ok(Kind::New)),
    ((3, 2, 2, b"90"), Ok(Kind::Again)),
    ((5, 2, 3, b""), Ok(Kind::Complete)),
    ((5, 1, 3, b"12"), Ok(Kind::Again)),
    ((5, 2, 3, b""), Ok(Kind::Again)),
];

// Whether a desk lists the documents 3 and 5, complete, and gives them.
fn holds_both<S: StoreSet>(desk: &Desk<S>, third: FileId, fifth: FileId) -> bool {
    let Ok(held) = desk.held() else {
        return false;
    };
    let [three, five] = held.as_slice() else {
        return false;
    };
    (three.id, three.n, three.mask) == (third, 2, 3)
        && (five.id, five.n, five.mask) == (fifth, 3, 7)
        && gives(desk, third, b"7890")
        && gives(desk, fifth, b"1256")
}

#[test]
fn documents_are_scanned(rt: HostRuntime) {
    let mut desk = opened(&rt, rt.alloc(), MemSet::new(rt.alloc()), 2);
    for (place, (scan, answer)) in SCANS.iter().enumerate() {
        let is_so = answers(rt.alloc(), &mut desk, *scan, *answer);
        assert!(rt; is_so, "{place}");
    }
    assert!(rt; holds_both(&desk, id_of(&rt, 3), id_of(&rt, 5)));
}

// Whether the second page of two is all that a desk holds of a document.
fn holds_second<S: StoreSet>(desk: &Desk<S>, id: FileId) -> bool {
    let is_held = match desk.pages(id) {
        Some(pages) => (pages.n(), pages.missing(), pages.get(1), pages.get(2))
            == (2, 1, None, Some(b"34".as_slice())),
        None => false,
    };
    is_held && desk.document(id).err() == Some(AskFault::Incomplete { missing: 1 })
}

// A save that fails, and the answer to its label once the desk is opened again.
const FAILED_SAVES: [(NextSave, Kind); 2] = [
    (NextSave::FaultOld, Kind::New),
    (NextSave::FaultNew, Kind::Again),
];

const SCAN: Scan = (0, 2, 2, b"34");

// Whether the save of a desk fails, which then holds nothing and takes nothing.
fn has_failed<S: StoreSet>(alloc: Global, desk: &mut Desk<S>, id: FileId) -> bool {
    answers(alloc, desk, SCAN, Err(ScanFault::Save))
        && desk.pages(id).is_none()
        && answers(alloc, desk, SCAN, Err(ScanFault::Failed))
}

#[test]
fn saves_fail(rt: HostRuntime) {
    let id = id_of(&rt, 0);
    for (next, kind) in FAILED_SAVES {
        let mut desk = opened(&rt, rt.alloc(), MemSet::new(rt.alloc()), 4);
        desk.set_next(next);
        assert!(rt; has_failed(rt.alloc(), &mut desk, id));
        let mut desk = opened(&rt, rt.alloc(), desk.close(), 4);
        assert!(rt; answers(rt.alloc(), &mut desk, SCAN, Ok(kind)) && holds_second(&desk, id));
    }
}

// The imports of files of the document 0, one after another, to a desk with room for one: how many pages are new, or
// the refusal.
#[rattlefmt::skip]
const IMPORTS: [(&[u8], Result<(u16, Kind), ImportFault>); 8] = [
    (b"DMPG\x02", Err(ImportFault::Damaged)),
    (SECOND, Ok((2, Kind::New))),
    (SECOND, Ok((0, Kind::Again))),
    (b"DMPG\x02\x01\x01\x02\x00\x02\x00\x0235", Err(ImportFault::Conflict)),
    (b"DMPG\x02\x01\x01\x03\x00\x02\x00\x0234", Err(ImportFault::Conflict)),
    // The first page would be new, and the second disagrees.
    (b"DMPG\x02\x01\x01\x02\x00\x03\x00\x0212\x00\x0235", Err(ImportFault::Conflict)),
    (b"DMPG\x02\x01\x02\x02\x00\x02\x00\x0234", Err(ImportFault::Full)),
    (WHOLE, Ok((1, Kind::Complete))),
];

// Whether an import is answered so.
fn imports<S: StoreSet>(
    desk: &mut Desk<S>,
    bytes: &[u8],
    answer: Result<(u16, Kind), ImportFault>,
) -> bool {
    match desk.import(bytes) {
        Ok(Imported { id, n, added, kind }) => (id.number(), n) == (0, 2)
            && answer == Ok((added, kind)),
        Err(fault) => answer == Err(fault),
    }
}

// Whether a desk gives a whole document, and then forgets it.
fn forgets<S: StoreSet>(desk: &mut Desk<S>, id: FileId) -> bool {
    exports(desk, id, WHOLE)
        && gives(desk, id, b"1234")
        && desk.forget(id) == Ok(())
        && desk.forget(id) == Err(ForgetFault::NotHeld)
}

#[test]
fn pages_come_and_go(rt: HostRuntime) {
    let id = id_of(&rt, 0);
    let mut desk = opened(&rt, rt.alloc(), MemSet::new(rt.alloc()), 1);
    for (place, (bytes, answer)) in IMPORTS.iter().enumerate() {
        assert!(rt; imports(&mut desk, bytes, *answer), "{place}");
    }
    assert!(rt; forgets(&mut desk, id));
    assert!(rt; answers(rt.alloc(), &mut desk, SCAN, Ok(Kind::New)) && holds_second(&desk, id));
    assert!(rt; desk.close().content(0) == Some(SECOND));
}

// Why no desk is opened on a set with these files, each under its key; or `opened`.
fn answer_to(alloc: Global, files: &[(u16, &[u8])], capacity: u16) -> &'static str {
    let mut set = MemSet::new(alloc);
    for (key, bytes) in files {
        if set.replace(*key, bytes).is_err() {
            return "Memory";
        }
    }
    match Desk::open(alloc, set, capacity) {
        Ok(_) => "opened",
        Err(refused) => refused.fault.name(),
    }
}

// The file of the document 1, of whose two pages the second is held: 34.
const OTHER: &[u8] = b"DMPG\x02\x01\x02\x02\x00\x02\x00\x0234";

// The files of a set, a capacity, and what is answered; the first file that is none decides.
#[rattlefmt::skip]
const SETS: [(&[(u16, &[u8])], u16, &str); 22] = [
    (&[], 0, "Capacity"),
    (&[], 1, "opened"),
    (&[], 1024, "opened"),
    (&[], 1025, "Capacity"),
    (&[(0, SECOND), (1, OTHER)], 2, "opened"),
    (&[(0, SECOND), (1, OTHER)], 1, "TooMany"),
    (&[(0, b""), (1, b"")], 1, "TooMany"),
    (&[(0, b""), (1, b"")], 0, "Capacity"),
    (&[(0, SECOND), (1, SECOND)], 2, "Damaged"),
    (&[(0, SECOND), (1, b"DMPG\x01")], 3, "Version"),
    (&[(0, b""), (1, b"DMPG\x01")], 3, "NotPages"),
    (&[(0, b"DMPG\x01"), (1, b"")], 3, "Version"),
    (&[(0, WHOLE), (64_516, SECOND)], 3, "Damaged"),
    (&[(0, WHOLE), (65_535, b"DMPG\x03")], 3, "Version"),
    // No page is held; the third of two, one of 17, another document's, one of no document.
    (&[(0, b"DMPG\x02\x01\x01\x02\x00\x00")], 4, "Damaged"),
    (&[(0, b"DMPG\x02\x01\x01\x02\x00\x04\x00\x00")], 4, "Damaged"),
    (&[(0, b"DMPG\x02\x01\x01\x11\x00\x01\x00\x00")], 4, "Damaged"),
    (&[(0, b"DMPG\x02\x01\x02\x02\x00\x01\x00\x00")], 4, "Damaged"),
    (&[(0, b"DMPG\x02\x00\xff\x02\x00\x01\x00\x00")], 4, "Damaged"),
    // One byte less and one more than a sound file, and a file of version 1.
    (&[(0, b"DMPG\x02\x01\x01\x02\x00\x02\x00\x023")], 4, "Damaged"),
    (&[(0, b"DMPG\x02\x01\x01\x02\x00\x02\x00\x02345")], 4, "Damaged"),
    (&[(0, b"DMPG\x01\x00\x00")], 4, "Version"),
];

#[test]
fn sets_are_refused(rt: HostRuntime) {
    for (place, (files, capacity, answer)) in SETS.iter().enumerate() {
        assert!(rt;
            answer_to(rt.alloc(), files, *capacity) == *answer,
            "{place}"
        );
    }
}

#[test]
fn a_page_has_at_most_2600_bytes(rt: HostRuntime) {
    let mut file = [b'7'; 2613];
    file[..12].copy_from_slice(b"DMPG\x02\x01\x01\x02\x00\x01\x0a\x29");
    assert!(rt; answer_to(rt.alloc(), &[(0, &file)], 4) == "Damaged");
    file[11] = 0x28;
    assert!(rt; answer_to(rt.alloc(), &[(0, &file[..2612])], 4) == "opened");
}

// A file of version 1 in which the document 0 has its second page.
fn joint_file(alloc: Global) -> Result<MemStore, AllocError> {
    let bytes = b"DMPG\x01\x00\x01\x01\x01\x02\x00\x02\x00\x0234".to_vec(alloc)?;
    Ok(MemStore::with(alloc, bytes))
}

// Moves twice, and whether the answers are these, and the set and the old store then have their files.
fn is_moved(
    alloc: Global,
    set: &mut MemSet,
    answers: [Result<u16, MoveFault>; 2],
) -> Result<bool, AllocError> {
    let mut old = joint_file(alloc)?;
    let first = move_pages(alloc, &mut old, set);
    let second = move_pages(alloc, &mut old, set);
    let is_emptied = old.content() == Some(b"DMPG\x01\x00\x00".as_slice());
    Ok([first, second] == answers && set.content(0) == Some(SECOND) && is_emptied)
}

// A set to which a joint file was moved, after its first save failed.
fn moved_set(rt: &impl Abort, alloc: Global) -> Result<MemSet, AllocError> {
    let mut set = MemSet::new(alloc);
    set.set_next(NextSave::FaultOld);
    assert!(rt; is_moved(alloc, &mut set, [Err(MoveFault::Device), Ok(1)])?);
    Ok(set)
}

#[test]
fn a_joint_file_is_moved(rt: HostRuntime) {
    let mut set = MemSet::new(rt.alloc());
    assert!(rt; is_moved(rt.alloc(), &mut set, [Ok(1), Ok(0)]).expect(&rt, "it is done"));
    let mut desk = opened(
        &rt,
        rt.alloc(),
        moved_set(&rt, rt.alloc()).expect(&rt, "it is done"),
        4,
    );
    assert!(rt; desk.forget(id_of(&rt, 0)) == Ok(()));
    let mut set = desk.close();
    assert!(rt; set.content(0) == None && set.keys(4).expect(&rt, "it is done").is_empty());
}

#[test]
fn a_joint_file_stays_beside_a_damaged_file(rt: HostRuntime) {
    let mut set = MemSet::new(rt.alloc());
    set.replace(0, &SECOND[..9]).expect(&rt, "it is done");
    let mut old = joint_file(rt.alloc()).expect(&rt, "it is done");
    let moved = move_pages(rt.alloc(), &mut old, &mut set);
    assert!(rt; moved == Err(MoveFault::Damaged) && set.content(0) == Some(&SECOND[..9]));
    assert!(rt; old.content() == joint_file(rt.alloc()).expect(&rt, "it is done").content());
}
