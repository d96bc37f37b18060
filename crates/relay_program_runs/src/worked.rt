//! A worked list of commands, over stores in memory.

ghost use Rattle.std.specs.Prelude.{◌≡◌, All, IfSome, IsTrue, codes, Some};
ghost use Rattle.dm_store.specs.Saved.{with_open_plans};
ghost use Rattle.relay_program_runs.specs.Worked.{EndWell, IsDone, IsWorked, two_files, no_files};

use dm_encodation::Scheme;
use dm_store::{Fuse, Kept, MemSet, MemStore, Store, StoreSet};
use relay::{Command, Labels, do_command};
use relay_shared::Streams;
use std::alloc::Allocator;
use std::io::{Result, Write};

// What is at a path after a command, its exit status, and what it wrote to its output.
#[derive(Drop)]
pub(crate) struct After<S: Store + Drop, T: StoreSet + Drop, A: Allocator> {
    pub(crate) store: S,
    pub(crate) set: T,
    pub(crate) status: u8,
    pub(crate) output: Vec<u8, A>,
}

// An output with room for that many more bytes.
#[derive(Drop)]
struct Narrow<A: Allocator> {
    bytes: Vec<u8, A>,
    room: usize,
}

impl<A: Allocator> Write for Narrow<A> {
    ghost contents = { λ output. Some output.bytes.items };

    fn write(&mut self, buf: &[u8]) -> Result<usize> {
        let count = self.bytes.write(&buf[..buf.len().min(self.room)])?;
        self.room -= count;
        Ok(count)
    }

    fn flush(&mut self) -> Result<()> {
        Ok(())
    }
}

// Does a command over a store and a set, this input, an output in memory with this room, and a standard error there.
fn done_within<A: Allocator + Copy, S: Store + Drop, T: StoreSet + Drop>(
    alloc: A,
    at: (S, T),
    input: &[u8],
    room: usize,
    command: Command<'_>,
) -> After<S, T, A>
    ensures { IsDone A command.entry (two_files (S.state at.0) (T.state at.1)) input.now result.status
        (two_files (S.state result.store) (T.state result.set)) result.output.items }
{
    let (store, set) = at;
    let output = Narrow {
        bytes: Vec::new(alloc),
        room,
    };
    let mut streams = Streams::new(input, output, Vec::new(alloc));
    let no_inputs: &[&[u8]] = &[];
    let ended = do_command(alloc, store, set, no_inputs, &mut streams, command);
    After {
        store: ended.store,
        set: ended.set,
        status: ended.status,
        output: streams.output.into_writer().bytes,
    }
}

// And with room for all.
pub(crate) fn done<A: Allocator + Copy, S: Store + Drop, T: StoreSet + Drop>(
    alloc: A,
    at: (S, T),
    input: &[u8],
    command: Command<'_>,
) -> After<S, T, A>
    ensures { IsDone A command.entry (two_files (S.state at.0) (T.state at.1)) input.now result.status
        (two_files (S.state result.store) (T.state result.set)) result.output.items }
{
    done_within(alloc, at, input, usize::MAX, command)
}

// A store that stops after this many calls: the next one, if it saves, is made there all the same.
fn stopping<A: Allocator + Copy>(store: MemStore<A>, calls: u32) -> Fuse<MemStore<A>>
    ensures { result.inner ≡ store }
{
    Fuse::new(store, calls, Kept::New)
}

// More calls than a command makes.
const MANY: u32 = 100;

// Nothing is at a path.
pub(crate) fn nothing<A: Allocator + Copy>(alloc: A) -> (Fuse<MemStore<A>>, Fuse<MemSet<A>>)
    ensures { two_files (with_open_plans result.0.inner) (with_open_plans result.1.inner) ≡ no_files }
{
    (
        Fuse::new(MemStore::new(alloc), MANY, Kept::New),
        Fuse::new(MemSet::new(alloc), MANY, Kept::New),
    )
}

// Whether all ended well.
pub(crate) fn all_well(statuses: &[u8]) -> bool
    ensures { IsTrue result → All (λ status. status ≡ 0) statuses.now }
{
    statuses.iter().all(|status| *status == 0)
}

// Whether this document came out twice.
pub(crate) fn are_documents(one: &[u8], other: &[u8]) -> bool
    ensures { IsTrue result → (one.now ≡ codes "1234") × (other.now ≡ codes "1234") }
{
    one == b"1234".as_slice() && other == b"1234".as_slice()
}

// Whether all ended well but one print, whose labels got lost; the file is short, and the document came out twice.
fn end_well(statuses: &[u8], lost: (u8, &[u8]), file: &[u8], one: &[u8], other: &[u8]) -> bool
    ensures { IsTrue result → EndWell statuses.now lost.entry.0 lost.entry.1.now file.now one.now other.now }
{
    all_well(statuses)
        && lost.0 == 1
        && !lost.1.is_empty()
        && file.len() <= 1000
        && are_documents(one, other)
}

/// Fourteen commands, at two ledgers and two desks. No bytes are answered where memory was refused.
#[rattlefmt::skip] // a command a line
pub fn worked_commands<A: Allocator + Copy>(alloc: A) -> Option<Vec<u8, A>>
    ensures { IfSome result (λ written. IsWorked A written.items) }
{
    let one = done(alloc, nothing(alloc), &[], Command::Ledger { file: "a", number: 0, first: 0, last: 99 });
    let two = done(alloc, nothing(alloc), &[], Command::Ledger { file: "b", number: 2, first: 100, last: 199 });
    let give = Command::Give { file: "a", number: 0, to: 2, first: 0, last: 9 };
    let three = done(alloc, (one.store, one.set), &[], give);
    let take = Command::Take { file: "b", number: 2, ticket: "00000000000200000009" };
    let four = done(alloc, (two.store, two.set), &[], take);
    let print = Command::Print { file: "a", number: 0, labels: Labels::OfSide(12), scheme: Scheme::Ascii };
    let five = done(alloc, (three.store, three.set), b"1234", print);
    let stopped = stopping(five.store.into_inner(), 1);
    let six = done(alloc, (stopped, five.set), b"5678", print);
    let again = stopping(six.store.into_inner(), MANY);
    let seven = done_within(alloc, (again, six.set), b"5678", 10, print);
    let eight = done(alloc, nothing(alloc), &five.output, Command::Scan { file: "d", capacity: 10 });
    let nine = done(alloc, (eight.store, eight.set), &[], Command::Deliver { file: "d", id: "010b" });
    let ten = done(alloc, (nine.store, nine.set), &[], Command::Export { file: "d", id: "010b" });
    let copy = Command::Copy { file: "d", id: "010b", page: 1, side: 12, scheme: Scheme::Ascii };
    let eleven = done(alloc, (ten.store, ten.set), &[], copy);
    let twelve = done(alloc, nothing(alloc), &eleven.output, Command::Scan { file: "e", capacity: 10 });
    let import = Command::Import { file: "e", capacity: 10 };
    let thirteen = done(alloc, (twelve.store, twelve.set), &ten.output, import);
    let fourteen = done(alloc, (thirteen.store, thirteen.set), &[], Command::Deliver { file: "e", id: "010b" });
    let statuses = [one.status, two.status, three.status, four.status, five.status, eight.status, nine.status,
        ten.status, eleven.status, twelve.status, thirteen.status, fourteen.status];
    let lost = (seven.status, seven.output.as_slice());
    if end_well(&statuses, lost, &ten.output, &nine.output, &fourteen.output) { Some(fourteen.output) } else { None }
}
