//! A worked list of typed lines, over places that hold nothing.

ghost use Rattle.std.specs.Prelude.{◌≡◌, ◌∷◌, ◌<◌, [], ℕ, All, codes, IsTrue, List, map, Ok, option_map};
ghost use Rattle.relay.specs.Line.{named_images, saved_path};
ghost use Rattle.relay_program_runs.specs.WorkedLines.{AreBlank, AreWorked, IsLineDone, LinesGoWell};

use crate::laws::{what_lines_let_out_is_the_document, what_lines_run_in_turn_find_what_was_left};
use dm_encodation::Scheme;
use dm_store::{MemSet, MemStore, NextSave, StoreFault};
use relay::{
    Command, CommandLine, Labels, MemPlace, MemPlaces, Places, StandardStreams, System,
    command_line,
};
use std::alloc::Global;

// The command of a line, its exit status, what it wrote to its output, and what is at the paths after it. The status is
// 2 if there is no command.
#[derive(Drop)]
struct LineDone<'a, P: Places> {
    command: Command<'a>,
    status: u8,
    output: Vec<u8>,
    places: P,
}

// Whether both are the same path, or there is none.
fn is_same_path(one: Option<&str>, other: Option<&str>) -> bool
    ensures { IsTrue result → option_map (λ path. path.now) one.entry ≡ option_map (λ path. path.now) other.entry }
{
    match (one, other) {
        (Some(one), Some(other)) => one == other,
        (None, None) => true,
        _ => false,
    }
}

// Whether a line names no file to be read, and this path for its output, or none.
fn names_only(line: &CommandLine<'_>, saved_as: Option<&str>) -> bool
    ensures { IsTrue result → (named_images line.now ≡ [])
        × (saved_path line.now ≡ option_map (λ path. path.now) saved_as.entry) }
{
    line.images.is_empty() && is_same_path(line.saved_as, saved_as)
}

// Does a line over these places and this input. Its words are to give a line that names no file to be read, and this path
// for its output, or none.
#[rattlefmt::skip] // a pattern a line
fn line_done<'a, P: Places>(
    alloc: Global, places: P, input: &[u8], words: &'a [&'a str], saved_as: Option<&str>,
) -> LineDone<'a, P>
    ensures { result.status < 2 → IsLineDone (P.known places) (map (λ word. word.now) words.now) result.command
        (option_map (λ path. path.now) saved_as.entry) (P.state places) input.now result.status (P.state result.places)
        result.output.items }
{
    let Ok(line) = command_line(alloc, words) else {
        return LineDone { command: Command::World, status: 2, output: Vec::new(alloc), places };
    };
    if !names_only(&line, saved_as) {
        return LineDone { command: line.command, status: 2, output: Vec::new(alloc), places };
    }
    let standard = StandardStreams(input, Vec::new(alloc), Vec::new(alloc));
    let (status, system) = System { standard, places }.do_line(alloc, &line);
    let System { standard, places } = system;
    let StandardStreams(_, output, _) = standard;
    LineDone { command: line.command, status, output, places }
}

// Whether the texts of each pair are the same.
fn are_same(pairs: &[(&str, &str)]) -> bool
    ensures { IsTrue result → All (λ pair. pair.0.now ≡ pair.1.now) pairs.now }
{
    pairs.iter().all(|pair| pair.0 == pair.1)
}

// Whether the numbers of each pair are equal.
fn are_equal(pairs: &[(u16, u16)]) -> bool
    ensures { IsTrue result → All (λ pair. pair.0 ≡ pair.1) pairs.now }
{
    pairs.iter().all(|pair| pair.0 == pair.1)
}

// Whether these are the commands of the worked list.
#[rattlefmt::skip] // a command a line
fn are_worked(
    one: Command<'_>, two: Command<'_>, three: Command<'_>, four: Command<'_>,
    five: Command<'_>, six: Command<'_>, seven: Command<'_>, eight: Command<'_>,
    nine: Command<'_>,
) -> bool
    ensures { IsTrue result → AreWorked (one.entry ∷ two.entry ∷ three.entry ∷ four.entry ∷ five.entry ∷ six.entry
        ∷ seven.entry ∷ eight.entry ∷ nine.entry ∷ []) }
{
    let Command::Ledger { file: f1, number: n1, first: a1, last: b1 } = one else { return false };
    let Command::Ledger { file: f2, number: n2, first: a2, last: b2 } = two else { return false };
    let Command::Give { file: f3, number: n3, to: t3, first: a3, last: b3 } = three else { return false };
    let Command::Take { file: f4, number: n4, ticket: t4 } = four else { return false };
    let Command::Take { file: f5, number: n5, ticket: t5 } = five else { return false };
    let Command::Ledger { file: f6, number: n6, first: a6, last: b6 } = six else { return false };
    let Command::Print { file: f7, number: n7, labels, scheme } = seven else { return false };
    let Command::Scan { file: f8, capacity: _ } = eight else { return false };
    let Command::Deliver { file: f9, id } = nine else { return false };
    let Labels::OfSide(side) = labels else { return false };
    let Scheme::Ascii = scheme else { return false };
    let ticket = "00000000000200000009";
    are_same(&[(f1, "a"), (f2, "b"), (f3, "a"), (f4, "b"), (f5, "b"), (f6, "c"), (f7, "a"), (f8, "d"), (f9, "d"),
        (t4, ticket), (t5, ticket), (id, "010b")])
        && are_equal(&[(n1, 0), (a1, 0), (b1, 99), (n2, 2), (a2, 100), (b2, 199), (n3, 0), (t3, 2), (a3, 0), (b3, 9), (n4, 2),
            (n5, 2), (n6, 3), (a6, 200), (b6, 299), (n7, 0), (side, 12)])
}

// Whether the lines ended as those of the worked list: all well, but two that were refused.
fn end_so(statuses: &[u8], old: &[u8], device: &[u8], saved: Result<(), StoreFault>) -> bool
    ensures { IsTrue result → (statuses.now ≡ 0 ∷ 0 ∷ 0 ∷ 0 ∷ 1 ∷ 1 ∷ 0 ∷ 0 ∷ 0 ∷ [])
        × (old.now ≡ codes "refused Old\n") × (device.now ≡ codes "refused Device\n") × (saved ≡ Ok tt) }
{
    statuses == [0, 0, 0, 0, 1, 1, 0, 0, 0].as_slice()
        && old == b"refused Old\n".as_slice()
        && device == b"refused Device\n".as_slice()
        && saved.is_ok()
}

/// Nine lines, at three ledgers and a desk. Whether they go as the worked list does: memory may be refused.
#[rattlefmt::skip] // a line a line
pub fn lines_over<P: Places>(alloc: Global, places: P) -> bool
    requires { (path : List ℕ) → AreBlank (P.state places path) }
    ensures { IsTrue result → LinesGoWell }
{
    what_lines_run_in_turn_find_what_was_left::<Global>();
    what_lines_let_out_is_the_document::<Global>();
    let words = ["relay", "ledger", "--file", "a", "--first", "0", "--last", "99"];
    let one = line_done(alloc, places, &[], &words, None);
    let words = ["relay", "ledger", "--file", "b", "--number", "2", "--first", "100", "--last", "199"];
    let two = line_done(alloc, one.places, &[], &words, None);
    let words = ["relay", "give", "--file", "a", "--number", "0", "--to", "2", "--first", "0", "--last", "9"];
    let three = line_done(alloc, two.places, &[], &words, None);
    let words = ["relay", "take", "--file", "b", "--number", "2", "--ticket", "00000000000200000009"];
    let four = line_done(alloc, three.places, &[], &words, None);
    let five = line_done(alloc, four.places, &[], &words, None);
    let words = ["relay", "ledger", "--file", "c", "--number", "3", "--first", "200", "--last", "299"];
    let six = line_done(alloc, five.places, &[], &words, None);
    let words = ["relay", "print", "--file", "a", "--side", "12"];
    let seven = line_done(alloc, six.places, b"1234", &words, None);
    let mut places = seven.places;
    let saved = places.save_new("labels", &seven.output).answer;
    let words = ["relay", "scan", "--file", "d"];
    let eight = line_done(alloc, places, &seven.output, &words, None);
    let words = ["relay", "deliver", "--file", "d", "--id", "010b", "--to", "out"];
    let nine = line_done(alloc, eight.places, &[], &words, Some("out"));
    let statuses = [one.status, two.status, three.status, four.status, five.status, six.status, seven.status, eight.status,
        nine.status];
    if !end_so(&statuses, &five.output, &six.output, saved) {
        return false;
    }
    are_worked(one.command, two.command, three.command, four.command, five.command, six.command, seven.command,
        eight.command, nine.command)
}

/// And so over places in memory, at one of which the first save fails.
#[rattlefmt::skip] // a pattern a line
pub fn worked_lines(alloc: Global) -> bool
    ensures { IsTrue result → LinesGoWell }
{
    let Ok(path) = String::from_str(alloc, "c") else { return false };
    let mut store = MemStore::new(alloc);
    store.set_next(NextSave::FaultNew);
    let opened = MemPlace { path, files: (store, MemSet::new(alloc)) };
    lines_over(alloc, MemPlaces { alloc, opened, kept: Vec::new(alloc), inputs: &[] })
}
