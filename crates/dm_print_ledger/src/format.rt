//! Saved ledgers, written and read.

ghost use Rattle.std.specs.Prelude.{◌≡◌, ◌≤◌, ◌<◌, ◌+◌, ◌*◌, ◌++◌, ◌∷◌, [], None, Ok, Err, IfSome, IfNone, IsTrue, length};
ghost use Rattle.std.specs.List.{flat_map};
ghost use Rattle.dm_print_ledger.specs.Ledger.{are_ranges as test_of_ranges, are_givers as test_of_givers, is_sound, ledger_bytes, first_bytes, range_bytes, giver_bytes, pairs_in, make_range, make_giver, is_first as test_of_first, read_first, read_second, shown_of, number_in, two_bytes};
ghost use Rattle.dm_print_ledger.specs.declared.fault.OpenFault.TheVariants.{Damaged};

use crate::free::count;
use crate::giver::Giver;
use crate::ledger::Ledger;
use crate::limits::{GREATEST, MOST_BYTES, MOST_GIVERS, MOST_RANGES};
use crate::range::{Range, is_range};
use arrayvec::ArrayVec;

// The five bytes that a ledger begins with.
fn mark(version: u8) -> ArrayVec<u8, MOST_BYTES>
    ensures { result.items ≡ 68 ∷ 77 ∷ 76 ∷ 71 ∷ version ∷ [] }
{
    let mut bytes = ArrayVec::new();
    bytes.push(b'D');
    bytes.push(b'M');
    bytes.push(b'L');
    bytes.push(b'G');
    bytes.push(version);
    bytes
}

// Adds a number in two bytes.
fn push_number(bytes: &mut ArrayVec<u8, MOST_BYTES>, number: u16)
    requires { length bytes.old.items + 2 ≤ MOST_BYTES }
    ensures { bytes.new.items ≡ bytes.old.items ++ two_bytes number }
{
    bytes.push((number / 256) as u8);
    bytes.push((number % 256) as u8);
}

// Adds ranges in four bytes each.
fn push_ranges(bytes: &mut ArrayVec<u8, MOST_BYTES>, ranges: &[Range])
    requires { length bytes.old.items + 4 * length ranges.now ≤ MOST_BYTES }
    ensures items { bytes.new.items ≡ bytes.old.items ++ flat_map range_bytes ranges.now }
    ensures len { length bytes.new.items ≡ length bytes.old.items + 4 * length ranges.now }
{
    for range in ranges {
        push_number(bytes, range.first);
        push_number(bytes, range.last);
    }
}

// Adds givers in four bytes each.
fn push_givers(bytes: &mut ArrayVec<u8, MOST_BYTES>, givers: &[Giver])
    requires { length bytes.old.items + 4 * length givers.now ≤ MOST_BYTES }
    ensures items { bytes.new.items ≡ bytes.old.items ++ flat_map giver_bytes givers.now }
    ensures len { length bytes.new.items ≡ length bytes.old.items + 4 * length givers.now }
{
    for giver in givers {
        push_number(bytes, giver.number);
        push_number(bytes, giver.serial);
    }
}

/// The bytes of a ledger.
pub(crate) fn bytes_of(ledger: &Ledger) -> ArrayVec<u8, MOST_BYTES>
    ensures bytes { result.items ≡ ledger_bytes ledger.now }
    ensures sound { IsTrue (is_sound ledger.now) }
{
    let mut bytes = mark(2);
    push_number(&mut bytes, ledger.number);
    push_number(&mut bytes, ledger.next_serial);
    bytes.push(ledger.free.len() as u8);
    push_ranges(&mut bytes, ledger.free.as_slice());
    bytes.push(ledger.givers.len() as u8);
    push_givers(&mut bytes, ledger.givers.as_slice());
    push_number(&mut bytes, (65535 - count(ledger.free.as_slice())) as u16);
    bytes
}

// Whether the ranges rise and don't touch.
fn are_ranges(ranges: &[Range]) -> bool
    ensures { result ≡ test_of_ranges ranges.now }
{
    let mut from = 0;
    for range in ranges {
        if range.first < from || !is_range(*range) {
            return false;
        }
        from = range.last + 2;
    }
    true
}

// Whether the givers rise by their numbers.
fn are_givers(givers: &[Giver]) -> bool
    ensures { result ≡ test_of_givers givers.now }
{
    let mut from = 0;
    for giver in givers {
        if (giver.number as u32) < from {
            return false;
        }
        from = giver.number as u32 + 1;
    }
    true
}

/// The number in two bytes.
pub(crate) fn number_at(bytes: &[u8], at: usize) -> u16
    requires { at + 1 < length bytes.now }
    ensures { result ≡ number_in bytes.now at }
{
    256 * bytes[at] as u16 + bytes[at + 1] as u16
}

// That many ranges, from a place on.
fn ranges_at(bytes: &[u8], at: usize, count: usize) -> ArrayVec<Range, MOST_RANGES>
    requires few { count ≤ MOST_RANGES }
    requires long { at + 4 * count ≤ length bytes.now }
    ensures { result.items ≡ pairs_in make_range bytes.now at count }
{
    let mut ranges = ArrayVec::new();
    for i in 0..count {
        let first = number_at(bytes, at + 4 * i);
        let last = number_at(bytes, at + 4 * i + 2);
        ranges.push(Range { first, last });
    }
    ranges
}

// That many givers, from a place on.
fn givers_at(bytes: &[u8], at: usize, count: usize) -> ArrayVec<Giver, MOST_GIVERS>
    requires few { count ≤ MOST_GIVERS }
    requires long { at + 4 * count ≤ length bytes.now }
    ensures { result.items ≡ pairs_in make_giver bytes.now at count }
{
    let mut givers = ArrayVec::new();
    for i in 0..count {
        let number = number_at(bytes, at + 4 * i);
        let serial = number_at(bytes, at + 4 * i + 2);
        givers.push(Giver { number, serial });
    }
    givers
}

/// The ledger of version 2 that bytes are, if they are one.
pub(crate) fn second_ledger(bytes: &[u8]) -> Option<Ledger>
    ensures some { IfSome result (λ ledger. read_second bytes.now ≡ Ok (shown_of ledger)) }
    ensures none { IfNone result (read_second bytes.now ≡ Err Damaged) }
{
    if bytes.len() < 13 {
        return None;
    }
    let ranges = bytes[9] as usize;
    if ranges > MOST_RANGES || bytes.len() < 13 + 4 * ranges {
        return None;
    }
    let givers = bytes[10 + 4 * ranges] as usize;
    if givers > MOST_GIVERS || bytes.len() != 13 + 4 * ranges + 4 * givers {
        return None;
    }
    let free = ranges_at(bytes, 10, ranges);
    let givers = givers_at(bytes, 11 + 4 * ranges, givers);
    if !are_ranges(free.as_slice()) {
        return None;
    }
    if !are_givers(givers.as_slice()) {
        return None;
    }
    let ledger = Ledger {
        number: number_at(bytes, 5),
        next_serial: number_at(bytes, 7),
        free,
        givers,
    };
    if bytes == bytes_of(&ledger).as_slice() {
        Some(ledger)
    } else {
        None
    }
}

// The bytes of a ledger of version 1.
#[tactic(auto, unfolding(crate::specs::Ledger::first_bytes))]
fn bytes_of_first(first: u16, last: u16, next: u16) -> ArrayVec<u8, MOST_BYTES>
    ensures { result.items ≡ first_bytes (record { first = first; last = last; next = next }) }
{
    let mut bytes = mark(1);
    push_number(&mut bytes, first);
    push_number(&mut bytes, last);
    push_number(&mut bytes, next);
    push_number(&mut bytes, 65535 - next);
    bytes
}

// Whether bytes are a ledger of version 1.
fn is_first(bytes: &[u8]) -> bool
    ensures value { result ≡ test_of_first bytes.now }
    ensures size { IsTrue result → length bytes.now ≡ 13 }
{
    if bytes.len() != 13 {
        return false;
    }
    let first = number_at(bytes, 5);
    let last = number_at(bytes, 7);
    let next = number_at(bytes, 9);
    first <= last
        && last <= GREATEST
        && first <= next
        && next <= last + 1
        && bytes == bytes_of_first(first, last, next).as_slice()
}

/// The ledger of version 1 that bytes are, if they are one, as that of a printer 0.
pub(crate) fn first_ledger(bytes: &[u8]) -> Option<Ledger>
    ensures some { IfSome result (λ ledger. read_first bytes.now ≡ Ok (record (shown_of ledger) { number = None })) }
    ensures none { IfNone result (read_first bytes.now ≡ Err Damaged) }
{
    if !is_first(bytes) {
        return None;
    }
    let last = number_at(bytes, 7);
    let next = number_at(bytes, 9);
    let mut free = ArrayVec::new();
    if next <= last {
        free.push(Range { first: next, last });
    }
    Some(Ledger {
        number: 0,
        next_serial: 0,
        free,
        givers: ArrayVec::new(),
    })
}
