//! `relay audit`: what ledgers and tickets show that breaks what printers rely on.

ghost use Rattle.std.specs.Prelude.{◌≡◌, ◌++◌, ◌∷◌, ◌<◌, ◌^◌, false, true, nat_eq, ℕ, List, [], IfSome, IsSomeAnd, Some, MatchResult, codes, length, map, option_map};
ghost use Rattle.std.specs.Cmp.Lexicographic.{pointwise};
ghost use Rattle.std.specs.Iterator.{AlwaysYields, IsFinite};
ghost use Rattle.std.specs.List.{flat_map, list_any};
ghost use Rattle.std.specs.Option.{option_map_or};
ghost use Rattle.std.specs.Str.Lines.{lines};
ghost use Rattle.dm_print_ledger.specs.Ledger.{ticket_bytes};
ghost use Rattle.dm_print_ledger.specs.Verdicts.{lacks_ticket};
ghost use Rattle.relay_shared.specs.Command.{FileView, refusal_name};
ghost use Rattle.relay_streams.specs.Streams.{OutputView, TakesPart, refused_line};
ghost use Rattle.relay_printer_commands.specs.Printers.{EndsAudit, EvidenceView, HasGathered, ShowsFile, ShowsLine, TellsAudit, TellsLines, are_same, breach_line, breach_lines, evidence_name, is_again, is_receiver as test_of_receiver, pair_lines, shows_none};
ghost use Rattle.relay_printer_commands.specs.inner.Kept.{may_clash as test_of_clash, ticket_evidence, with_tickets, without_end};

use crate::tickets::ticket_on;
use dm_print_ledger::{MOST_BYTES, Shown, Ticket};
use itoa::Buffer;
use relay_shared::{NamedFile, Refusal, Streams, refuse};
use relay_streams::{Input, Output};
use std::alloc::Allocator;
use std::io::{Read, Write};
use std::marker::Model;

/// One byte more than the greatest ledger.
pub const LEDGER_BYTES: usize = MOST_BYTES + 1;

/// One byte more than the tickets of an audit have at most.
pub const TICKETS_BYTES: usize = 1_048_577;

// What a ledger or a ticket shows.
#[derive(Drop)]
struct Evidence {
    place: usize,
    ticket: Option<Ticket>,
    shown: Shown,
}

impl Model for Evidence {
    ghost Value = { EvidenceView };

    ghost view = { λ one. record { place = one.place; fault = []; ticket = one.ticket; shown = one.shown } };
}

impl Evidence {
    // What a file shows, or the name of its fault.
    fn of_file<F: NamedFile>(file: &F, place: usize) -> Result<Evidence, &'static str>
        ensures { MatchResult result (λ one. (one.fault ≡ []) × ShowsFile place (F.known file.now) one)
            (λ name. ShowsFile place (F.known file.now) (shows_none (codes "file") place name.now)) }
    {
        let mut room = [0u8; LEDGER_BYTES];
        let reader = match file.open() {
            Ok(reader) => reader,
            Err(fault) => return Err(fault.name()),
        };
        let mut input = Input::new(reader);
        let count = match input.fill(&mut room) {
            Ok(count) => count,
            Err(fault) => {
                let name = fault.name();
                file.end(input.into_reader(), Some(name));
                return Err(name);
            }
        };
        match Shown::read(&room[..count]) {
            Ok(shown) => Ok(Evidence {
                place,
                ticket: None,
                shown,
            }),
            Err(fault) => Err(fault.name()),
        }
    }

    // Whether they are the same ticket.
    fn is_same(&self, other: &Evidence) -> bool
        ensures { result ≡ are_same self.now other.now }
    {
        match (self.ticket, other.ticket) {
            (Some(ticket), Some(its)) => is_same(ticket, its),
            _ => false,
        }
    }

    // Whether the other is a ticket, and this the ledger of its receiver.
    fn is_receiver(&self, other: &Evidence) -> bool
        ensures { result ≡ test_of_receiver self.now other.now }
    {
        other
            .ticket
            .is_some_and(|ticket| self.shown.is_of(ticket.receiver))
    }

    // Whether both show one ticket, and neither is the ledger of the other's receiver.
    fn is_again(&self, other: &Evidence) -> bool
        ensures { result ≡ is_again self.now other.now }
    {
        self.shown.shares_ticket(&other.shown)
            && !(self.is_receiver(other) || other.is_receiver(self))
    }

    // Tells its name after a space.
    fn tell<W: Write>(&self, output: &mut Output<W>)
        ensures { TellsLines (32 ∷ evidence_name self.now) output.old true output.new }
    {
        let (mut placed, mut numbered) = (Buffer::new(), Buffer::new());
        let place = placed.format(self.place).as_bytes();
        let _ = match (self.ticket, self.shown.number()) {
            (Some(_), _) => output.put_all(&[b" ticket ", place]),
            (None, None) => output.put_all(&[b" ledger ", place, b" of -"]),
            (None, Some(number)) => {
                let number = numbered.format(number).as_bytes();
                output.put_all(&[b" ledger ", place, b" of ", number])
            }
        };
    }
}

// Whether they are the same ticket.
fn is_same(one: Ticket, other: Ticket) -> bool
    ensures { result ≡ pointwise nat_eq (ticket_bytes one) (ticket_bytes other) }
{
    one == other
}

// Whether the ledger of a ticket's receiver is there, and has not taken it.
fn is_lacked(ledgers: &[Evidence], ticket: Ticket) -> bool
    ensures { result ≡ list_any (λ one. lacks_ticket one.shown ticket) ledgers.now }
{
    ledgers.iter().any(|one| one.shown.lacks(ticket))
}

// The ticket of a line, and whether it is open. An audit may have tens of thousands, and each is compared with each, so
// that they are kept small.
#[derive(Clone, Copy)]
struct LineTicket {
    place: usize,
    ticket: Ticket,
    is_open: bool,
}

impl LineTicket {
    // The ticket of a line, or the name of the line's fault.
    fn of_line(ledgers: &[Evidence], line: &[u8], place: usize) -> Result<LineTicket, &'static str>
        ensures { MatchResult result (λ one. ShowsLine ledgers.now place line.now (ticket_evidence one))
            (λ name. ShowsLine ledgers.now place line.now (shows_none (codes "line") place name.now)) }
    {
        let Some(ticket) = ticket_on(line) else {
            return Err(Refusal::Ticket.name());
        };
        let is_open = is_lacked(ledgers, ticket);
        Ok(LineTicket {
            place,
            ticket,
            is_open,
        })
    }

    // What it shows.
    fn evidence(&self) -> Evidence
        ensures { result ≡ ticket_evidence self.now }
    {
        Evidence {
            place: self.place,
            ticket: Some(self.ticket),
            shown: Shown::of_ticket(self.ticket, self.is_open),
        }
    }

    // Whether both show one ticket, or some ID as free. That the ranges meet is one comparison, which is seldom true.
    fn may_clash(&self, other: &LineTicket) -> bool
        ensures { result ≡ test_of_clash (ticket_evidence self.now) (ticket_evidence other.now) }
    {
        let (one, its) = (self.ticket, other.ticket);
        let first = one.range.first.max(its.range.first);
        let last = one.range.last.min(its.range.last);
        (one.serial == its.serial && one.giver == its.giver)
            || (first <= last && self.is_open && other.is_open)
    }
}

// What is kept, or nothing if memory was refused.
fn kept_in<A: Allocator>(sound: &Option<Vec<Evidence, A>>) -> &[Evidence]
    ensures { IfSome (option_map (λ some. some.items) sound.now) (λ some. result.now ≡ some) }
{
    match sound {
        Some(some) => some.as_slice(),
        None => &[],
    }
}

// Keeps what a file or a line shows after what is kept already, or drops it all if memory is refused. A fault is
// written, and then the answer is true.
fn gather<T: Drop, A: Allocator, W: Write>(
    sound: &mut Option<Vec<T, A>>,
    output: &mut Output<W>,
    list: &str,
    place: usize,
    seen: Result<T, &str>,
) -> bool
    ensures { MatchResult seen.entry
        (λ one. (result ≡ false) × (output.new ≡ output.old) × IfSome (option_map (λ some. some.items) sound.new)
        (λ grown. IsSomeAnd (option_map (λ some. some.items) sound.old) (λ some. grown ≡ some ++ one ∷ [])))
        (λ name. (result ≡ true)
        × (option_map (λ some. some.items) sound.new ≡ option_map (λ some. some.items) sound.old)
        × TellsLines (shows_none list.now place name.now).fault output.old true output.new) }
{
    match seen {
        Ok(one) => {
            let is_kept = match sound {
                Some(some) => some.push(one).is_ok(),
                None => false,
            };
            if !is_kept {
                *sound = None;
            }
            false
        }
        Err(name) => {
            let mut digits = Buffer::new();
            let place = digits.format(place).as_bytes();
            let _ = output.put_all(&[list.as_bytes(), b" ", place, b" ", name.as_bytes(), b"\n"]);
            true
        }
    }
}

// Gathers what files show, and says whether any shows nothing.
fn gather_files<A: Allocator, F: NamedFile, W: Write>(
    sound: &mut Option<Vec<Evidence, A>>,
    output: &mut Output<W>,
    files: &[F],
) -> bool
    requires { option_map (λ some. some.items) sound.old ≡ Some [] }
    ensures { (lines : List (List ℕ)) → HasGathered (map F.known files.now) lines (length (map F.known files.now)) 0
        (option_map (λ some. some.items) sound.new) output.old result output.new }
{
    let mut told = false;
    for (i, file) in files.iter().enumerate() {
        let seen = Evidence::of_file(file, i + 1);
        told |= gather(sound, output, "file", i + 1, seen);
    }
    told
}

// A line without the line feed that ends it, and without a carriage return before that.
fn without_end(line: &[u8]) -> &[u8]
    ensures { result.now ≡ without_end line.now }
{
    match line {
        [text @ .., b'\r', b'\n'] | [text @ .., b'\n'] => text,
        _ => line,
    }
}

// Gathers the tickets of lines, except empty ones, and says whether any fault was told, of a file or of a line.
fn gather_lines<'a, A: Allocator, W: Write, I: Iterator<Item = &'a [u8]> + Drop>(
    ledgers: &Option<Vec<Evidence, A>>,
    tickets: &mut Option<Vec<LineTicket, A>>,
    output: &mut Output<W>,
    lines: I,
    told: bool,
) -> bool
    requires can_next { I.can_next lines × IsFinite (I.remaining lines) }
    requires few { (all : List (List ℕ)) × AlwaysYields I.next_gives (λ line. without_end line.now) lines all
        × (length all < 2 ^ 64) }
    ensures { (all : List (List ℕ)) → AlwaysYields I.next_gives (λ line. without_end line.now) lines all
        → (files : List FileView) (old : OutputView)
        → let kept = with_tickets (option_map (λ some. some.items) ledgers.now) in
        HasGathered files all (length files) 0 (kept (option_map (λ some. some.items) tickets.old)) old told output.old
        → HasGathered files all (length files) (length all) (kept (option_map (λ some. some.items) tickets.new)) old
        result output.new }
{
    let before = kept_in(ledgers);
    let (mut place, mut told) = (0, told);
    for line in lines {
        place += 1;
        let text = without_end(line);
        if !text.is_empty() {
            let seen = LineTicket::of_line(before, text, place);
            told |= gather(tickets, output, "line", place, seen);
        }
    }
    told
}

// Tells what is wrong between two, if this is.
fn tell_breach<W: Write>(
    output: &mut Output<W>,
    is: bool,
    kind: &str,
    one: &Evidence,
    other: &Evidence,
) -> bool
    ensures { TellsLines (breach_line is kind.now one.now other.now) output.old result output.new }
{
    if is {
        let _ = output.put(kind.as_bytes());
        one.tell(output);
        other.tell(output);
        let _ = output.put(b"\n");
    }
    is
}

// Tells all that is wrong between two.
fn tell_breaches<W: Write>(output: &mut Output<W>, one: &Evidence, other: &Evidence) -> bool
    ensures { TellsLines (breach_lines one.now other.now) output.old result output.new }
{
    if one.is_same(other) {
        return false;
    }
    let (shown, its) = (&one.shown, &other.shown);
    tell_breach(output, shown.is_of_one_with(its), "number", one, other)
        | tell_breach(output, shown.shares_numbers(its), "free", one, other)
        | tell_breach(output, one.is_again(other), "again", one, other)
        | tell_breach(output, shown.is_behind(its), "behind", one, other)
        | tell_breach(output, its.is_behind(shown), "behind", other, one)
}

// Tells all that is wrong between one and each later one.
fn tell_later<W: Write>(output: &mut Output<W>, one: &Evidence, later: &[Evidence]) -> bool
    ensures { TellsLines (flat_map (breach_lines one.now) later.now) output.old result output.new }
{
    let mut told = false;
    for other in later {
        told |= tell_breaches(output, one, other);
    }
    told
}

// Tells all that is wrong between a ledger and each ticket.
fn tell_tickets<W: Write>(output: &mut Output<W>, one: &Evidence, tickets: &[LineTicket]) -> bool
    ensures { TellsLines (flat_map (λ its. breach_lines one.now (ticket_evidence its)) tickets.now)
        output.old result output.new }
{
    let mut told = false;
    for ticket in tickets {
        told |= tell_breaches(output, one, &ticket.evidence());
    }
    told
}

// Tells all that is wrong between two tickets that may clash: seldom, and so it is kept out of the loop over pairs.
#[cold]
#[inline(never)]
fn tell_clash<W: Write>(output: &mut Output<W>, one: &LineTicket, other: &LineTicket) -> bool
    ensures { TellsLines (breach_lines (ticket_evidence one.now) (ticket_evidence other.now))
        output.old result output.new }
{
    !is_same(one.ticket, other.ticket) && tell_breaches(output, &one.evidence(), &other.evidence())
}

// Tells all that is wrong between a ticket and each later one. A copy of the ticket stays in registers, for speed.
#[inline(never)]
fn tell_later_tickets<W: Write>(
    output: &mut Output<W>,
    one: &LineTicket,
    later: &[LineTicket],
) -> bool
    ensures { TellsLines (flat_map (λ its. breach_lines (ticket_evidence one.now) (ticket_evidence its)) later.now)
        output.old result output.new }
{
    let own = *one;
    let mut told = false;
    for other in later {
        if own.may_clash(other) {
            told |= tell_clash(output, one, other);
        }
    }
    told
}

// Tells all that is wrong between any two tickets.
fn tell_ticket_pairs<W: Write>(output: &mut Output<W>, tickets: &[LineTicket]) -> bool
    ensures { TellsLines (pair_lines (map ticket_evidence tickets.now)) output.old result output.new }
{
    let mut told = false;
    for (i, one) in tickets.iter().enumerate() {
        told |= tell_later_tickets(output, one, &tickets[i + 1..]);
    }
    told
}

// Tells all that is wrong between any two.
fn tell_pairs<W: Write>(
    output: &mut Output<W>,
    ledgers: &[Evidence],
    tickets: &[LineTicket],
) -> bool
    ensures { TellsLines (pair_lines (ledgers.now ++ map ticket_evidence tickets.now)) output.old result output.new }
{
    let mut told = false;
    for (i, one) in ledgers.iter().enumerate() {
        told |= tell_later(output, one, &ledgers[i + 1..]);
        told |= tell_tickets(output, one, tickets);
    }
    told | tell_ticket_pairs(output, tickets)
}

// Tells that memory was refused.
fn tell_memory<W: Write>(output: &mut Output<W>) -> bool
    ensures { TellsLines (refused_line (refusal_name Refusal.Memory)) output.old result output.new }
{
    let _ = output.put_refusal(Refusal::Memory.name());
    true
}

// Tells all that is wrong between any two that were kept, or that memory was refused for some.
fn tell_kept<A: Allocator, W: Write>(
    output: &mut Output<W>,
    ledgers: &Option<Vec<Evidence, A>>,
    tickets: &Option<Vec<LineTicket, A>>,
) -> bool
    ensures { let memory = refused_line (refusal_name Refusal.Memory) in
        TellsLines (option_map_or pair_lines (with_tickets (option_map (λ some. some.items) ledgers.now)
        (option_map (λ some. some.items) tickets.now)) memory) output.old result output.new }
{
    let Some(ledgers) = ledgers else {
        return tell_memory(output);
    };
    let Some(tickets) = tickets else {
        return tell_memory(output);
    };
    tell_pairs(output, ledgers.as_slice(), tickets.as_slice())
}

// Tells what these files, and the tickets in these bytes, show that is wrong, and says whether anything is.
fn audit<A: Allocator + Copy, F: NamedFile, W: Write>(
    alloc: A,
    output: &mut Output<W>,
    files: &[F],
    bytes: &[u8],
) -> bool
    ensures { TellsAudit (map F.known files.now) (lines bytes.now) output.old result output.new }
{
    let (mut ledgers, mut tickets) = (Some(Vec::new(alloc)), Some(Vec::new(alloc)));
    let told = gather_files(&mut ledgers, output, files);
    let lines = bytes.split_inclusive(|byte| *byte == b'\n');
    let told = gather_lines(&ledgers, &mut tickets, output, lines, told);
    told | tell_kept(output, &ledgers, &tickets)
}

/// Reads ledgers from files, and tickets from the lines of the input, at most 1,048,576 bytes of them. A line ends in a
/// line feed, or a carriage return and a line feed. Prints a line for each file that gives no ledger, and each line
/// that has no ticket and is not empty, as it is read; and then one for each two that break a rule of printers. If
/// memory is refused for what a file or a line shows, the line `refused Memory` stands in place of these. The exit
/// status is 0 where it prints none. Nothing is saved or locked.
pub fn audit_command<A: Allocator + Copy, F: NamedFile, R: Read, W: Write, E: Write>(
    alloc: A,
    files: &[F],
    streams: &mut Streams<R, W, E>,
) -> u8
    ensures part { TakesPart streams.old.input.remaining streams.new.input.remaining TICKETS_BYTES }
    ensures ends { EndsAudit (map F.known files.now) streams.old result streams.new }
{
    let bytes = match streams.input.read_up_to(alloc, TICKETS_BYTES) {
        Ok(bytes) => bytes,
        Err(fault) => return refuse(&mut streams.output, fault.name()),
    };
    if bytes.len() == TICKETS_BYTES {
        return refuse(&mut streams.output, Refusal::TooMany.name());
    }
    u8::from(audit(alloc, &mut streams.output, files, &bytes))
}
