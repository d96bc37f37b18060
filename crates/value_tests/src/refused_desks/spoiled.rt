// Files of pages of which one byte is changed or added, or the end is cut off: each is refused by the name that the
// table of the format says, or is another sound file, and then a desk holds exactly that one.
use super::JOINT;
use super::table::{answer, id_at};
use crate::refused_printers::number;
use dm_append_label::FileId;
use dm_assembly_desk::{Desk, move_pages};
use dm_store::{MemSet, MemStore, StoreSet};
use std::alloc::{AllocError, Global};
use test_helpers::{count, spoiled};

// Of the three pages of the document 9 the first is held, 12, and the third, Z.
const SOME: &[u8] = b"DMPG\x02\x01\x0a\x03\x00\x05\x00\x0212\x00\x01Z";

// Both pages of the document 9 are held, 34 and one with no bytes.
const ALL: &[u8] = b"DMPG\x02\x01\x0a\x02\x00\x03\x00\x0234\x00\x00";

// The number of the document 9.
const KEY: u16 = 9;

// The number of the document of a file.
fn number_of(file: &[u8]) -> u32 {
    id_at(file.get(5..).unwrap_or(b""))
}

fn sound_if(is_right: bool) -> &'static str {
    if is_right { "sound" } else { "another file" }
}

// Whether a desk holds what a sound file does, and no more.
fn holds<S: StoreSet>(desk: &Desk<S>, file: &[u8]) -> bool {
    let Ok(number) = u16::try_from(number_of(file)) else {
        return false;
    };
    let Some(id) = FileId::of_number(number) else {
        return false;
    };
    match (desk.export(id), desk.held()) {
        (Ok(bytes), Ok(held)) => bytes.as_slice() == file && held.len() == 1,
        _ => false,
    }
}

// What is answered to bytes as the file of the document 9.
fn opened(alloc: Global, file: &[u8]) -> &'static str {
    let mut set = MemSet::new(alloc);
    if set.replace(KEY, file).is_err() {
        return "no memory";
    }
    match Desk::open(alloc, set, 4) {
        Ok(desk) => sound_if(holds(&desk, file)),
        Err(refused) => refused.fault.name(),
    }
}

// What is answered to bytes that a desk imports that holds nothing.
fn imported(alloc: Global, file: &[u8]) -> &'static str {
    let Ok(mut desk) = Desk::open(alloc, MemSet::new(alloc), 4) else {
        return "no desk";
    };
    match desk.import(file) {
        Ok(imported) => {
            let is_of_file = u32::from(imported.id.number()) == number_of(file);
            sound_if(is_of_file && holds(&desk, file))
        }
        Err(fault) => fault.name(),
    }
}

// What is answered where the documents of bytes as a file of version 1 are moved to an empty set.
fn moved(alloc: Global, file: &[u8]) -> Result<&'static str, AllocError> {
    let mut old = MemStore::with(alloc, file.to_vec(alloc)?);
    let mut set = MemSet::new(alloc);
    Ok(match move_pages(alloc, &mut old, &mut set) {
        Ok(count) => sound_if(u32::from(count) == number(file, 5)),
        Err(fault) => fault.name(),
    })
}

// What is done with bytes.
enum How {
    Open,
    Import,
    Move,
}

// What is answered to bytes.
fn answered(alloc: Global, how: &How, file: &[u8]) -> Result<&'static str, AllocError> {
    match how {
        How::Open => Ok(opened(alloc, file)),
        How::Import => Ok(imported(alloc, file)),
        How::Move => moved(alloc, file),
    }
}

// What is to be answered by the tables.
fn wanted(how: &How, file: &[u8]) -> &'static str {
    let is_other = number_of(file) != u32::from(KEY);
    let name = answer(file, if matches!(how, How::Move) { 1 } else { 2 });
    if name == "sound" && matches!(how, How::Open) && is_other {
        "Damaged"
    } else {
        name
    }
}

// The names of the refusals, and the answer to a sound file.
const NAMES: [&str; 4] = ["NotPages", "Version", "Damaged", "sound"];

// Each file, what is done with its copies, and how often each name is answered, by a reader in another language.
const FILES: [(&[u8], How, [u32; 4]); 5] = [
    (SOME, How::Open, [2047, 511, 5620, 799]),
    (ALL, How::Open, [2047, 511, 5364, 542]),
    (SOME, How::Import, [2047, 511, 5114, 1305]),
    (ALL, How::Import, [2047, 511, 4858, 1048]),
    (JOINT, How::Move, [2047, 511, 8676, 1334]),
];

#[test]
fn each_byte_is_spoiled(rt: HostRuntime) {
    for (file, how, counted) in FILES.iter() {
        let mut counts = [0u32; 4];
        for copy in spoiled(rt.alloc(), *file).expect(&rt, "it is done").iter() {
            let name = answered(rt.alloc(), how, copy.as_slice()).expect(&rt, "it is done");
            assert!(rt; name == wanted(how, copy.as_slice()), "{copy:?}");
            count(&mut counts, &NAMES, name);
        }
        assert!(rt; counts == *counted);
    }
}
