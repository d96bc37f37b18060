//! Scripts: printers, desks, and the events that follow.

ghost use Rattle.std.specs.Prelude.{◌≡◌, ◌⊎◌, ◌↔◌, ◌≤◌, ◌<◌, Ok, Err, IfOk, IfErr, [], length, slice_index_or, MatchOption};
ghost use Rattle.std.specs.Io.BufRead.{strip_last};
ghost use Rattle.relay_script.specs.Words.{cut_at, IsRead, IsReadBy};
ghost use Rattle.relay_script.specs.Scripts.{AreDesks, IsScript, AreLinesOf, desks_place, SpellsRange};

use crate::spelled::{Spelled, read_all, words};
use crate::words::{ScriptFault, number, range};
use dm_event_history::Event;
use dm_print_ledger::Range;
use std::alloc::{Allocator, Global};

/// The most bytes of a script.
pub const SCRIPT_BYTES: usize = 1_048_576;

/// The most printers of a script.
pub const MOST_PRINTERS: usize = 64;

/// The most desks of a script.
pub const MOST_DESKS: u16 = 64;

/// The most events of a script.
pub const MOST_EVENTS: usize = 10_000;

/// A script: the ranges of its printers, the capacities of its desks, and its events in their order.
#[derive(Drop)]
pub struct Script<A: Allocator + Copy = Global> {
    pub ranges: Vec<Range, A>,
    pub capacities: Vec<u16, A>,
    pub events: Vec<Event<A>, A>,
}

/// Reads a script of at most `SCRIPT_BYTES` bytes.
pub fn read_script<A: Allocator + Copy>(alloc: A, bytes: &[u8]) -> Result<Script<A>, ScriptFault>
    ensures { IsRead result (IsScript bytes.now) }
{
    if bytes.len() > SCRIPT_BYTES {
        return Err(ScriptFault::Script);
    }
    let Ok(text) = str::from_utf8(bytes) else {
        return Err(ScriptFault::Script);
    };
    read_lines(alloc, without_end(text))
}

// The text without the line end after its last line.
fn without_end(text: &str) -> &str
    ensures { result.now ≡ strip_last 10 text.now }
{
    text.strip_suffix('\n').unwrap_or(text)
}

fn read_lines<A: Allocator + Copy>(alloc: A, text: &str) -> Result<Script<A>, ScriptFault>
    ensures { IsRead result (AreLinesOf (cut_at 10 text.now)) }
{
    let Some(printers) = desks_line(text) else {
        return Err(ScriptFault::Script);
    };
    if printers == 0 || printers > MOST_PRINTERS || line_count(text) - printers - 1 > MOST_EVENTS {
        return Err(ScriptFault::Script);
    }
    let ranges = read_all(alloc, text.split('\n').take(printers));
    let capacities = read_desks(alloc, line_at(text, printers));
    let events = read_all(alloc, text.split('\n').skip(printers + 1));
    script_of(ranges, capacities, events)
}

// The script of three parts that were read: one that is to blame comes before memory that was refused.
fn script_of<A: Allocator + Copy>(
    ranges: Result<Vec<Range, A>, ScriptFault>,
    capacities: Result<Vec<u16, A>, ScriptFault>,
    events: Result<Vec<Event<A>, A>, ScriptFault>,
) -> Result<Script<A>, ScriptFault>
    ensures read { IfOk result (λ script. (ranges ≡ Ok script.ranges) × (capacities ≡ Ok script.capacities)
        × (events ≡ Ok script.events)) }
    ensures refused { IfErr result (λ fault. (fault ≡ ScriptFault.Script) ↔ ((ranges ≡ Err ScriptFault.Script)
        ⊎ ((capacities ≡ Err ScriptFault.Script) ⊎ (events ≡ Err ScriptFault.Script)))) }
{
    if matches!(ranges, Err(ScriptFault::Script))
        || matches!(capacities, Err(ScriptFault::Script))
        || matches!(events, Err(ScriptFault::Script))
    {
        return Err(ScriptFault::Script);
    }
    Ok(Script {
        ranges: ranges?,
        capacities: capacities?,
        events: events?,
    })
}

// How many lines the text has.
fn line_count(text: &str) -> usize
    ensures { result ≡ length (cut_at 10 text.now) }
{
    text.split('\n').count()
}

// The line at a place, which is empty past the last.
fn line_at(text: &str, place: usize) -> &str
    ensures { result.now ≡ slice_index_or (cut_at 10 text.now) place [] }
{
    text.split('\n').nth(place).unwrap_or("")
}

// The place of the line of desks.
fn desks_line(text: &str) -> Option<usize>
    ensures { let lines = cut_at 10 text.now in MatchOption result (length lines ≤ desks_place lines)
        (λ n. (n ≡ desks_place lines) × (n < length lines)) }
{
    text.split('\n').position(|line| line.starts_with("desks"))
}

impl<A: Allocator + Copy> Spelled<A> for Range {
    ghost spells = { SpellsRange };

    fn read(_alloc: A, line: &str) -> Result<Range, ScriptFault> {
        let words = words(line).ok_or(ScriptFault::Script)?;
        let ["range", first, last] = *words.as_slice() else {
            return Err(ScriptFault::Script);
        };
        range(first, last).ok_or(ScriptFault::Script)
    }
}

fn read_desks<A: Allocator + Copy>(alloc: A, line: &str) -> Result<Vec<u16, A>, ScriptFault>
    ensures { IsReadBy (λ capacities. capacities.items) result (AreDesks line.now) }
{
    let words = words(line).ok_or(ScriptFault::Script)?;
    let ["desks", count, capacity] = *words.as_slice() else {
        return Err(ScriptFault::Script);
    };
    let (Some(count), Some(capacity)) = (number(count), number(capacity)) else {
        return Err(ScriptFault::Script);
    };
    if count == 0 || count > MOST_DESKS {
        return Err(ScriptFault::Script);
    }
    Ok(vec![in alloc; capacity; usize::from(count)]?)
}
