// A desk to which each growth of memory is refused in turn. A call that was refused for lack of memory is done when it
// is made again.
use super::{FULL, THIRD, WHOLE};
use dm_append_label::{FileId, Page, seal};
use dm_assembly_desk::Desk;
use dm_encodation::Scheme;
use dm_finder_frame::Grid;
use dm_size::Size;
use dm_store::{MemSet, StoreSet};
use std::alloc::Global;
use std::process::Abort;
use test_helpers::Refusing;

pub type Memory = Refusing<Global>;

// A call on a desk that holds the page 3 of the document 9.
pub enum Call {
    // The label of a page of the document 0.
    Scan(u8),
    // The document 0, its file, and the list of all.
    Document,
    Export,
    List,
    Import(&'static [u8]),
    // The document 9 is let go.
    Forget,
}

// The calls, one after another, and what is answered to each.
pub const CALLS: [(Call, &str); 8] = [
    (Call::Scan(1), "new"),
    (Call::Scan(2), "complete"),
    (Call::Document, "done"),
    (Call::Export, "done"),
    (Call::List, "done"),
    (Call::Import(FULL), "complete"),
    (Call::Forget, "done"),
    (Call::Import(THIRD), "new"),
];

// More growths than all calls together ask for.
const MANY: u32 = 3000;

fn done_if(is_right: bool) -> &'static str {
    if is_right { "done" } else { "another answer" }
}

// The label of the page m of the two of the document 0.
fn sealed(memory: &Memory, m: u8) -> Option<Grid<&Memory>> {
    let bytes = if m == 1 { b"12" } else { b"34" };
    let page = Page::new(FileId::of_number(0)?, m, 2, bytes.to_vec(memory).ok()?)?;
    seal(memory, &page, Size::Side12, Scheme::Ascii).ok()
}

// What is answered to the label of a page, which is sealed again where that was refused.
fn scanned<'a, S: StoreSet>(
    desk: &mut Desk<S, &'a Memory>,
    memory: &'a Memory,
    m: u8,
) -> &'static str {
    for _time in 0..2 {
        if let Some(label) = sealed(memory, m) {
            return match desk.accept(&label) {
                Ok(accepted) => accepted.kind.name(),
                Err(fault) => fault.name(),
            };
        }
    }
    "no label"
}

// What is answered where the document 0 is asked for, or its file.
fn given<S: StoreSet>(desk: &Desk<S, &Memory>, id: FileId, is_file: bool) -> &'static str {
    if is_file {
        return match desk.export(id) {
            Ok(bytes) => done_if(bytes.as_slice() == WHOLE),
            Err(fault) => fault.name(),
        };
    }
    match desk.document(id) {
        Ok(document) => done_if(document.as_slice() == b"1234".as_slice()),
        Err(fault) => fault.name(),
    }
}

// What is answered where a file is imported, or the document let go.
fn changed<S: StoreSet>(
    desk: &mut Desk<S, &Memory>,
    file: Option<&[u8]>,
    id: FileId,
) -> &'static str {
    if let Some(file) = file {
        return match desk.import(file) {
            Ok(imported) => imported.kind.name(),
            Err(fault) => fault.name(),
        };
    }
    match desk.forget(id) {
        Ok(()) => "done",
        Err(fault) => fault.name(),
    }
}

// What is answered to a call.
pub fn made<'a, S: StoreSet>(
    desk: &mut Desk<S, &'a Memory>,
    memory: &'a Memory,
    call: &Call,
) -> &'static str {
    let (Some(zero), Some(nine)) = (FileId::of_number(0), FileId::of_number(9)) else {
        return "no ID";
    };
    match call {
        Call::Scan(m) => scanned(desk, memory, *m),
        Call::Document => given(desk, zero, false),
        Call::Export => given(desk, zero, true),
        Call::List => match desk.held() {
            Ok(held) => done_if(held.len() == 2),
            Err(_) => "Memory",
        },
        Call::Import(file) => changed(desk, Some(*file), nine),
        Call::Forget => changed(desk, None, nine),
    }
}

// A set that holds the document 9. It is filled again where that was refused.
pub fn filled<'a>(rt: &impl Abort, memory: &'a Memory) -> MemSet<&'a Memory> {
    let mut set = MemSet::new(memory);
    assert!(rt; set.replace(9, THIRD).is_ok() || set.replace(9, THIRD).is_ok());
    set
}

type MemDesk<'a> = Desk<MemSet<&'a Memory>, &'a Memory>;

// A desk over a set that holds the document 9, opened again where it was refused.
fn opened<'a>(memory: &'a Memory, mut set: MemSet<&'a Memory>) -> Option<MemDesk<'a>> {
    for _time in 0..2 {
        set = match Desk::open(memory, set, 4) {
            Ok(desk) => return Some(desk),
            Err(refused) => refused.store,
        };
    }
    None
}

// Whether a call is refused, and is done when it is made again; or none, if it isn't done then.
fn is_refused<'a, S: StoreSet>(
    desk: &mut Desk<S, &'a Memory>,
    memory: &'a Memory,
    (call, wanted): &(Call, &str),
) -> Option<bool> {
    let answer = made(desk, memory, call);
    if answer == *wanted {
        return Some(false);
    }
    let is_of_memory = answer == "Memory" && memory.is_spent();
    (is_of_memory && made(desk, memory, call) == *wanted).then_some(true)
}

// Makes all calls: which of them are refused, as bits.
fn refused_calls(rt: &impl Abort, memory: &Memory) -> u8 {
    let mut desk = opened(memory, filled(rt, memory)).expect(rt, "it is opened");
    let mut refused = 0u8;
    for (place, call) in CALLS.iter().enumerate() {
        if is_refused(&mut desk, memory, call).expect(rt, "it is done") {
            refused |= 1u8 << (place % 8);
        }
    }
    let set = desk.close();
    assert!(rt; set.content(0) == Some(WHOLE) && set.content(9) == Some(THIRD));
    refused
}

#[test]
fn each_growth_is_refused(rt: HostRuntime) {
    let mut refused = 0u8;
    for passes in 0..=MANY {
        assert!(rt; passes < MANY);
        let memory = Refusing::new(rt.alloc(), u64::from(passes));
        refused |= refused_calls(&rt, &memory);
        if !memory.is_spent() {
            break;
        }
    }
    // A forget takes no memory.
    assert!(rt; refused == 0b1011_1111);
}
