//! Each command over the disk of a machine, and how it ends.

use crate::left_files::{Files, PAGES, SET, STORE, files_on, keep};
use crate::machine::Machine;
use dm_disk::{FileSet, FileStore, Folders};
use dm_encodation::Scheme;
use dm_print_ledger::Range;
use dm_store::{Kept, Store, StoreFault, StoreSet};
use relay_desk_commands::{
    CopyOptions, EndedAll, Given, copy_command, deliver_command, export_command, forget_command,
    give_all, held_command, import_command, scan_command,
};
use relay_printer_commands::{
    Labels, audit_command, give_command, give_last_command, ledger_command, left_command,
    plan_command, print_command, take_command, ticket_command,
};
use relay_shared::{Streams, refuse};
use relay_symbol_commands::{Form, draw_command, read_command, words_command};
use relay_world_command::world_command;
use std::alloc::{AllocError, Allocator, Global};
use std::io::{Read, Write};
use test_helpers::MemDisk;

/// The commands.
#[derive(Clone, Copy)]
pub enum Call {
    Words,
    /// Whether the image is plain.
    Draw(bool),
    Read,
    Plan,
    Ticket,
    World,
    Ledger,
    Print,
    PrintAuto,
    Give,
    GiveLast,
    Take,
    Left,
    /// What it reads.
    Scan(&'static [u8]),
    Deliver,
    DeliverAll,
    /// An ID.
    Forget(&'static str),
    Export(&'static str),
    /// What it reads.
    Import(&'static [u8]),
    /// Files of two documents, which its line names.
    ImportFiles,
    /// An ID, or none for all.
    Held(Option<&'static str>),
    Copy,
    /// What a desk of an older version has saved: a file of two documents.
    Joint,
}

#[rattlefmt::skip]
const FORM: Form = Form { side: 10, scheme: Scheme::Ascii };

// The numbers of printer 0, and those of them that it gives.
const NUMBERS: Range = Range { first: 0, last: 9 };

const GIVEN: Range = Range { first: 5, last: 9 };

// Two IDs of printer 1, for printer 0.
const TICKET: &str = "00010000000000140015";

const ID: &str = "0101";

#[rattlefmt::skip]
const COPY: CopyOptions<'static> = CopyOptions { id: ID, page: 2, side: 12, scheme: Scheme::Ascii };

const CAPACITY: u16 = 4;

// The images, and pages, come on the input.
const NO_FILES: [&[u8]; 0] = [];

const TWO_FILES: [&[u8]; 2] = [OTHER, BOTH];

/// The file of printer 0 with the IDs 0 to 9.
pub const NEW_LEDGER: &[u8] = b"DMLG\x02\0\0\0\0\x01\0\0\0\x09\0\xff\xf5";

// The file of page 2 of `1234`.
const PAGE_2: &[u8] = b"DMPG\x02\x01\x01\x02\0\x02\0\x0234";

/// The file of both pages of `1234`, and that of a page of another document.
pub const BOTH: &[u8] = b"DMPG\x02\x01\x01\x02\0\x03\0\x0212\0\x0234";

pub const OTHER: &[u8] = b"DMPG\x02\x01\x03\x02\0\x01\0\x0212";

// Page 2 of 0101, and page 1 of 0103.
const JOINT: &[u8] = b"DMPG\x01\0\x02\x01\x01\x02\0\x02\0\x0234\x01\x03\x02\0\x01\0\x0212";

/// The images of the two labels of `1234` in side 12, drawn by the standard's rules without the crates: heads by 5.6,
/// error correction codewords by the generator polynomial for 7 (Annex E), modules by Annex F.
pub const LABELS: &[u8] = b"P4\n14 14\n\
    \0\0\x55\x50\x42\x38\x4c\x60\x79\xc8\x76\x90\x62\x08\x55\x30\x62\x48\x63\xd0\x4b\x68\x41\xd0\x7f\xf8\0\0\
    P4\n14 14\n\
    \0\0\x55\x50\x42\x38\x5c\x60\x7c\x88\x74\x40\x7a\x48\x79\xf0\x44\xa8\x4a\x50\x42\x28\x41\x10\x7f\xf8\0\0";

/// The first of them.
pub const LABEL: &[u8] = b"P4\n14 14\n\
    \0\0\x55\x50\x42\x38\x4c\x60\x79\xc8\x76\x90\x62\x08\x55\x30\x62\x48\x63\xd0\x4b\x68\x41\xd0\x7f\xf8\0\0";

/// The first label of `5678` under the same ID.
pub const OTHER_LABEL: &[u8] = b"P4\n14 14\n\
    \0\0\x55\x50\x42\x38\x4c\x60\x7f\x48\x72\0\x72\x58\x43\xa0\x40\xd8\x46\x90\x4a\xa8\x41\x10\x7f\xf8\0\0";

const SCRIPT: &[u8] =
    b"range 0 9\ndesks 1 4\nprint 0 12 ascii 31323334 -\nscan 0 0 - -\nscan 0 1 - -\n\
    ask 0 0101\n";

/// The calls that are made alone, over the file that each asks for.
#[rattlefmt::skip]
pub const CALLS: [Call; 23] = [
    Call::Words, Call::Draw(false), Call::Draw(true), Call::Read, Call::Plan, Call::Ticket,
    Call::GiveLast, Call::World, Call::Ledger, Call::Print, Call::PrintAuto, Call::Give, Call::Take, Call::Left,
    Call::Scan(LABEL), Call::Deliver, Call::DeliverAll, Call::Forget(ID), Call::Export(ID), Call::Import(BOTH),
    Call::Held(None), Call::Held(Some(ID)), Call::Copy,
];

impl Call {
    /// Its input.
    pub fn input(self) -> &'static [u8] {
        match self {
            Call::Words | Call::Draw(_) => b"123456",
            Call::Read => LABEL,
            Call::Plan | Call::Print | Call::PrintAuto => b"1234",
            Call::World => SCRIPT,
            Call::Scan(bytes) | Call::Import(bytes) => bytes,
            _ => b"",
        }
    }

    // Whether it is on a printer.
    #[rattlefmt::skip]
    fn is_of_printer(self) -> bool {
        matches!(self, Call::Ledger | Call::Print | Call::PrintAuto | Call::Give | Call::GiveLast)
            || matches!(self, Call::Take | Call::Left)
    }

    // A disk with the file that it is made over alone.
    fn disk(self, alloc: Global) -> Result<MemDisk, StoreFault> {
        let mut disk = MemDisk::new(alloc);
        match self {
            Call::Ledger => {}
            _ if self.is_of_printer() => keep(&mut disk, STORE, NEW_LEDGER)?,
            Call::Scan(_) | Call::Import(_) | Call::Held(_) => keep(&mut disk, PAGES, PAGE_2)?,
            Call::Deliver | Call::DeliverAll | Call::Forget(_) | Call::Export(_) | Call::Copy => {
                keep(&mut disk, PAGES, BOTH)?;
            }
            _ => {}
        }
        Ok(disk)
    }

    /// Whether its lines go to the standard error, since its output is not of lines.
    pub fn writes_no_lines(self) -> bool {
        matches!(self, Call::Draw(_) | Call::Print | Call::PrintAuto)
            || matches!(
                self,
                Call::Deliver | Call::DeliverAll | Call::Export(_) | Call::Copy
            )
    }
}

// A call that looks at no file.
fn of_streams<A: Allocator + Copy, R: Read, W: Write, E: Write>(
    memory: A,
    streams: &mut Streams<R, W, E>,
    call: Call,
) -> u8 {
    match call {
        Call::Words => words_command(memory, streams, FORM),
        Call::Draw(is_plain) => draw_command(memory, streams, FORM, is_plain),
        Call::Read => read_command(memory, &NO_FILES, streams),
        Call::Plan => plan_command(memory, streams, Scheme::Ascii),
        Call::Ticket => ticket_command(streams, TICKET),
        _ => world_command(memory, streams),
    }
}

/// Audits a file that has no ledger, and then a ledger that it is given twice.
pub fn audit<A: Allocator + Copy, R: Read, W: Write, E: Write>(
    memory: A,
    streams: &mut Streams<R, W, E>,
) -> u8 {
    let files = [b"".as_slice(), NEW_LEDGER, NEW_LEDGER];
    audit_command(memory, &files, streams)
}

// A call on a printer: over any store, since what is over that of a machine is proved in more time.
fn of_printer<A: Allocator + Copy, S: Store, R: Read, W: Write, E: Write>(
    memory: A,
    store: S,
    streams: &mut Streams<R, W, E>,
    call: Call,
) -> u8 {
    let labels = match call {
        Call::Ledger => return ledger_command(memory, store, streams, 0, NUMBERS).status,
        Call::Give => return give_command(memory, store, streams, 0, 1, GIVEN).status,
        Call::GiveLast => return give_last_command(memory, store, streams, 0, 1, 5).status,
        Call::Take => return take_command(memory, store, streams, 0, TICKET).status,
        Call::Left => return left_command(store, streams).status,
        Call::PrintAuto => Labels::AtMost(2),
        _ => Labels::OfSide(12),
    };
    print_command(memory, store, streams, 0, labels, Scheme::Ascii).status
}

// Gives all documents of a desk. What would go to files goes to the output, one after another.
fn deliver_all<A: Allocator + Copy, S: Store, T: StoreSet, R: Read, W: Write, E: Write>(
    memory: A,
    store: S,
    set: T,
    streams: &mut Streams<R, W, E>,
) -> u8 {
    let EndedAll { answer, .. } = give_all(memory, store, set, Given::Document);
    let all = match answer {
        Ok(all) => all,
        Err(name) => return refuse(&mut streams.errors, name),
    };
    for document in &all.documents {
        if streams.output.put(document.bytes.as_slice()).is_err() {
            return refuse(&mut streams.errors, "Write");
        }
    }
    0
}

// A call on a desk, over any store and set.
fn of_desk<A: Allocator + Copy, S: Store, T: StoreSet, R: Read, W: Write, E: Write>(
    memory: A,
    mut store: S,
    set: T,
    streams: &mut Streams<R, W, E>,
    call: Call,
) -> u8 {
    match call {
        Call::Scan(_) => scan_command(memory, store, set, &NO_FILES, streams, CAPACITY).status,
        Call::Deliver => deliver_command(memory, store, set, streams, ID).status,
        Call::DeliverAll => deliver_all(memory, store, set, streams),
        Call::Forget(id) => forget_command(memory, store, set, streams, id).status,
        Call::Export(id) => export_command(memory, store, set, streams, id).status,
        Call::Import(_) => import_command(memory, store, set, &NO_FILES, streams, CAPACITY).status,
        Call::ImportFiles => import_command(
            memory, store, set, &TWO_FILES, streams, CAPACITY,
        ).status,
        Call::Held(id) => held_command(memory, store, set, streams, id).status,
        Call::Copy => copy_command(memory, store, set, streams, COPY).status,
        _ => u8::from(store.replace(JOINT).is_err()),
    }
}

// Does a command over any disk, this memory and these streams. A desk has its store and its set on two disks, which
// may be one.
fn status_of<A: Allocator + Copy, D: Folders, R: Read, W: Write, E: Write>(
    memory: A,
    alloc: Global,
    (disk, disk_of_set): (D, D),
    streams: &mut Streams<R, W, E>,
    call: Call,
) -> Result<u8, AllocError> {
    let store = FileStore::new(disk, String::from_str(alloc, STORE)?);
    let set = FileSet::new(disk_of_set, String::from_str(alloc, SET)?);
    Ok(match call {
        Call::Words | Call::Draw(_) | Call::Read | Call::Plan | Call::Ticket | Call::World => {
            of_streams(memory, streams, call)
        }
        _ if call.is_of_printer() => of_printer(memory, store, streams, call),
        _ => of_desk(memory, store, set, streams, call),
    })
}

/// How a call ended: its status, the rest of its input, what it wrote, whether the machine does no call more, the files
/// before it and after it, and their disk.
#[derive(Drop)]
pub struct CallEnd<R: Read + Drop, W: Write + Drop, E: Write + Drop> {
    pub status: u8,
    pub reader: R,
    pub writer: W,
    pub errors: E,
    pub has_stopped: bool,
    pub old: Files,
    pub files: Files,
    pub disk: MemDisk,
}

/// How it ended over a whole input, and outputs that do not fail.
pub type Whole = CallEnd<&'static [u8], Vec<u8>, Vec<u8>>;

impl<R: Read + Drop> CallEnd<R, Vec<u8>, Vec<u8>> {
    /// The lines that it wrote, and what else.
    pub fn told(&self, call: Call) -> (&[u8], &[u8]) {
        if call.writes_no_lines() {
            (self.errors.as_slice(), self.writer.as_slice())
        } else {
            (self.writer.as_slice(), self.errors.as_slice())
        }
    }

    /// Whether it wrote nothing but its lines; a scan may note which image a line is of.
    pub fn tells_no_more(&self, call: Call) -> bool {
        let (_, others) = self.told(call);
        others.is_empty() || matches!(call, Call::Scan(_)) && others.starts_with(b"relay: image ")
    }

    /// Whether it was refused before it did anything, by this line.
    pub fn is_refused(&self, call: Call, line: &[u8]) -> bool {
        let (lines, _) = self.told(call);
        self.status == 1 && lines == line && self.tells_no_more(call) && self.files == self.old
    }
}

/// Whether a call whose output took these bytes ended as it does over whole streams.
pub fn is_whole<R: Read + Drop, W: Write + Drop>(
    ended: &CallEnd<R, W, Vec<u8>>,
    taken: &[u8],
    whole: &Whole,
) -> bool {
    ended.status == 0
        && taken == whole.writer.as_slice()
        && ended.errors == whole.errors
        && ended.files == whole.files
}

/// Streams of a reader, with outputs in memory.
pub fn streams_of<R: Read>(alloc: Global, reader: R) -> Streams<R, Vec<u8>, Vec<u8>> {
    Streams::new(reader, Vec::new(alloc), Vec::new(alloc))
}

/// Makes a call over a machine, streams and this memory. What the machine and the streams have is in the other memory.
pub fn made_over<A: Allocator + Copy, R: Read + Drop, W: Write + Drop, E: Write + Drop>(
    memory: A,
    alloc: Global,
    machine: Machine,
    mut streams: Streams<R, W, E>,
    call: Call,
) -> Result<CallEnd<R, W, E>, StoreFault> {
    let disks = (machine.disk(), machine.disk());
    let status = status_of(memory, alloc, disks, &mut streams, call)?;
    let has_stopped = machine.has_stopped();
    let (mut disk, old) = machine.into_disk();
    let files = files_on(alloc, &mut disk)?;
    Ok(CallEnd {
        status,
        reader: streams.input.into_reader(),
        writer: streams.output.into_writer(),
        errors: streams.errors.into_writer(),
        has_stopped,
        old,
        files,
        disk,
    })
}

/// Makes a call over a machine with this disk, which stops at the call of it after so many, and its whole input.
pub fn made_until(
    alloc: Global,
    disk: MemDisk,
    passes: u32,
    kept: Kept,
    call: Call,
) -> Result<Whole, StoreFault> {
    let machine = Machine::new(alloc, disk, passes, kept)?;
    made_over(alloc, alloc, machine, streams_of(alloc, call.input()), call)
}

/// Makes a call over a machine that does not stop.
pub fn made(alloc: Global, disk: MemDisk, call: Call) -> Result<Whole, StoreFault> {
    made_until(alloc, disk, u32::MAX, Kept::Old, call)
}

/// Makes a call alone, over streams and this memory.
pub fn alone<A: Allocator + Copy, R: Read + Drop, W: Write + Drop, E: Write + Drop>(
    memory: A,
    alloc: Global,
    streams: Streams<R, W, E>,
    call: Call,
) -> Result<CallEnd<R, W, E>, StoreFault> {
    let machine = Machine::new(alloc, call.disk(alloc)?, u32::MAX, Kept::Old)?;
    made_over(memory, alloc, machine, streams, call)
}

/// Makes a call alone, over its whole input.
pub fn alone_whole(alloc: Global, call: Call) -> Result<Whole, StoreFault> {
    alone(alloc, alloc, streams_of(alloc, call.input()), call)
}
