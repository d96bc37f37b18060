//! Short lists of commands, each without one premise of a law: its conclusion fails. Each function answers whether all
//! went well; it does not where memory is refused.

ghost use Rattle.std.specs.Prelude.{IsTrue};
ghost use Rattle.relay_program_runs.specs.Worked.{NeedsExports, NeedsFiles, NeedsFolders, NeedsLabels, NeedsNumbers};
ghost use Rattle.relay_program_runs.specs.Worked.{NeedsRanges, NeedsTickets};

use crate::worked::{all_well, are_documents, done, nothing};
use dm_encodation::Scheme;
use relay::{Command, Labels};
use std::alloc::Allocator;

/// Two ledgers have one range: the first ID is printed at both.
#[rattlefmt::skip] // a command a line
pub fn needs_ranges<A: Allocator + Copy>(alloc: A) -> bool
    ensures { IsTrue result → NeedsRanges A }
{
    let one = done(alloc, nothing(alloc), &[], Command::Ledger { file: "a", number: 0, first: 0, last: 99 });
    let two = done(alloc, nothing(alloc), &[], Command::Ledger { file: "b", number: 2, first: 0, last: 99 });
    let print = Command::Print { file: "a", number: 0, labels: Labels::OfSide(12), scheme: Scheme::Ascii };
    let three = done(alloc, (one.store, one.set), b"1234", print);
    let print = Command::Print { file: "b", number: 2, labels: Labels::OfSide(12), scheme: Scheme::Ascii };
    let four = done(alloc, (two.store, two.set), b"5678", print);
    all_well(&[one.status, two.status, three.status, four.status])
}

/// Two ledgers have one number: one ticket is taken at both, and its first ID is printed at both.
#[rattlefmt::skip] // a command a line
pub fn needs_numbers<A: Allocator + Copy>(alloc: A) -> bool
    ensures { IsTrue result → NeedsNumbers A }
{
    let one = done(alloc, nothing(alloc), &[], Command::Ledger { file: "a", number: 0, first: 0, last: 99 });
    let two = done(alloc, nothing(alloc), &[], Command::Ledger { file: "b", number: 2, first: 100, last: 199 });
    let three = done(alloc, nothing(alloc), &[], Command::Ledger { file: "c", number: 2, first: 200, last: 299 });
    let four = done(alloc, (one.store, one.set), &[], Command::Give { file: "a", number: 0, to: 2, first: 0, last: 9 });
    let take = Command::Take { file: "b", number: 2, ticket: "00000000000200000009" };
    let five = done(alloc, (two.store, two.set), &[], take);
    let take = Command::Take { file: "c", number: 2, ticket: "00000000000200000009" };
    let six = done(alloc, (three.store, three.set), &[], take);
    let print = Command::Print { file: "b", number: 2, labels: Labels::OfSide(12), scheme: Scheme::Ascii };
    let seven = done(alloc, (five.store, five.set), b"1234", print);
    let print = Command::Print { file: "c", number: 2, labels: Labels::OfSide(12), scheme: Scheme::Ascii };
    let eight = done(alloc, (six.store, six.set), b"5678", print);
    all_well(&[one.status, two.status, three.status, four.status, five.status, six.status, seven.status, eight.status])
}

/// A ticket is taken that nobody gave: its first ID is printed where it is taken, and at its giver.
#[rattlefmt::skip] // a command a line
pub fn needs_tickets<A: Allocator + Copy>(alloc: A) -> bool
    ensures { IsTrue result → NeedsTickets A }
{
    let one = done(alloc, nothing(alloc), &[], Command::Ledger { file: "a", number: 0, first: 0, last: 99 });
    let two = done(alloc, nothing(alloc), &[], Command::Ledger { file: "b", number: 2, first: 100, last: 199 });
    let take = Command::Take { file: "b", number: 2, ticket: "00000000000200000009" };
    let three = done(alloc, (two.store, two.set), &[], take);
    let print = Command::Print { file: "a", number: 0, labels: Labels::OfSide(12), scheme: Scheme::Ascii };
    let four = done(alloc, (one.store, one.set), b"1234", print);
    let print = Command::Print { file: "b", number: 2, labels: Labels::OfSide(12), scheme: Scheme::Ascii };
    let five = done(alloc, (three.store, three.set), b"5678", print);
    all_well(&[one.status, two.status, three.status, four.status, five.status])
}

/// A ledger is put back after a print, from a second one that was made likewise: the next print has the same
/// ID.
#[rattlefmt::skip] // a command a line
pub fn needs_files<A: Allocator + Copy>(alloc: A) -> bool
    ensures { IsTrue result → NeedsFiles A }
{
    let one = done(alloc, nothing(alloc), &[], Command::Ledger { file: "a", number: 0, first: 0, last: 99 });
    let backup = done(alloc, nothing(alloc), &[], Command::Ledger { file: "a", number: 0, first: 0, last: 99 });
    let print = Command::Print { file: "a", number: 0, labels: Labels::OfSide(12), scheme: Scheme::Ascii };
    let two = done(alloc, (one.store, one.set), b"1234", print);
    let three = done(alloc, (backup.store, backup.set), b"5678", print);
    all_well(&[one.status, backup.status, two.status, three.status])
}

/// Labels and a file of a print before the list are taken in by its commands, or its file is in a folder: they deliver
/// its document.
#[rattlefmt::skip] // a command a line
pub fn needs_labels_and_exports<A: Allocator + Copy>(alloc: A) -> bool
    ensures labels { IsTrue result → NeedsLabels A }
    ensures exports { IsTrue result → NeedsExports A }
    ensures folders { IsTrue result → NeedsFolders A }
{
    let made = done(alloc, nothing(alloc), &[], Command::Ledger { file: "a", number: 0, first: 0, last: 99 });
    let print = Command::Print { file: "a", number: 0, labels: Labels::OfSide(12), scheme: Scheme::Ascii };
    let printed = done(alloc, (made.store, made.set), b"1234", print);
    let scan = done(alloc, nothing(alloc), &printed.output, Command::Scan { file: "d", capacity: 10 });
    let here = done(alloc, (scan.store, scan.set), &[], Command::Deliver { file: "d", id: "0101" });
    let export = done(alloc, (here.store, here.set), &[], Command::Export { file: "d", id: "0101" });
    let import = done(alloc, nothing(alloc), &export.output, Command::Import { file: "e", capacity: 10 });
    let there = done(alloc, (import.store, import.set), &[], Command::Deliver { file: "e", id: "0101" });
    are_documents(&here.output, &there.output)
}
