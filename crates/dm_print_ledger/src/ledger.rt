//! What a printer remembers, and what a print, a range given and a ticket taken make of it.

ghost use Rattle.std.specs.Prelude.{◌≡◌, ◌≤◌, length, IsTrue, ◌<◌, true, Ok, IfSome, IfNone, IfOk};
ghost use Rattle.dm_print_ledger.specs.Ledger.{is_sound, LedgerView, free_count, is_range as test_of_range};
ghost use Rattle.std.specs.List.{All};
ghost use Rattle.dm_print_ledger.specs.Verdicts.{least, print_verdict, give_verdict, take_verdict, ticket_of};

use crate::fault::{GiveFault, TakeFault};
use crate::free::{are_free, count, has_free, union_of, without};
use crate::giver::{Giver, givers_with, is_old};
use crate::limits::{MOST_GIVERS, MOST_RANGES};
use crate::range::{Range, is_range};
use crate::ticket::Ticket;
use arrayvec::ArrayVec;
use std::marker::Model;

/// A printer's number, the serial of its next ticket, its free numbers, and from whom it took tickets.
#[derive(Drop)]
pub(crate) struct Ledger {
    pub number: u16,
    pub next_serial: u16,
    pub free: ArrayVec<Range, MOST_RANGES>,
    pub givers: ArrayVec<Giver, MOST_GIVERS>,
}

impl Model for Ledger {
    ghost Value = { LedgerView };

    ghost view = { λ ledger. record {
      number = ledger.number;
      next_serial = ledger.next_serial;
      free = ledger.free.items;
      givers = ledger.givers.items;
    } };

    ghost invariant = { λ ledger. IsTrue (is_sound (record {
      number = ledger.number;
      next_serial = ledger.next_serial;
      free = ledger.free.items;
      givers = ledger.givers.items;
    })) };
}

// A copy of the givers.
fn copy_of(givers: &[Giver]) -> ArrayVec<Giver, MOST_GIVERS>
    requires { length givers.now ≤ MOST_GIVERS }
    ensures { result.items ≡ givers.now }
{
    let mut copy = ArrayVec::new();
    let Ok(()) = copy.try_extend_from_slice(givers) else {
        unreachable!()
    };
    copy
}

impl Ledger {
    /// How many IDs are free.
    pub(crate) fn left(&self) -> u32
        ensures value { result ≡ free_count self.now.free }
        ensures bound { result ≤ 64516 }
    {
        count(self.free.as_slice())
    }

    /// Its free numbers.
    pub(crate) fn ranges(&self) -> &[Range]
        ensures same { result.now ≡ self.now.free }
        ensures each { All (λ range. IsTrue (test_of_range range)) result.now }
    {
        self.free.as_slice()
    }

    /// Its least free number, if there is one.
    pub(crate) fn least_free(&self) -> Option<u16>
        ensures some { IfSome result (λ n. (0 < length self.now.free) × (n ≡ least self.now.free) × (n ≤ 64515)) }
        ensures none { IfNone result (length self.now.free ≡ 0) }
    {
        match self.free.as_slice() {
            [] => None,
            [first, ..] => Some(first.first),
        }
    }

    /// The ledger after a print of a document that has parts.
    pub(crate) fn after_print(&self) -> Ledger
        requires { 0 < length self.now.free }
        ensures value { Ok result ≡ print_verdict self.now true }
        ensures sound { IsTrue (is_sound result) }
    {
        let Some(least) = self.least_free() else {
            unreachable!()
        };
        let single = Range {
            first: least,
            last: least,
        };
        let Ok(free) = without(self.free.as_slice(), single) else {
            unreachable!()
        };
        Ledger {
            number: self.number,
            next_serial: self.next_serial,
            free,
            givers: copy_of(self.givers.as_slice()),
        }
    }

    /// The ledger after a range is given.
    pub(crate) fn after_give(&self, receiver: u16, range: Range) -> Result<Ledger, GiveFault>
        ensures value { result ≡ give_verdict self.now receiver range }
        ensures sound { IfOk result (λ next. IsTrue (is_sound next)) }
    {
        if !is_range(range) {
            return Err(GiveFault::Range);
        }
        if receiver == self.number {
            return Err(GiveFault::Receiver);
        }
        if !are_free(self.free.as_slice(), range) {
            return Err(GiveFault::NotFree);
        }
        if self.next_serial == u16::MAX {
            return Err(GiveFault::Serials);
        }
        let Ok(free) = without(self.free.as_slice(), range) else {
            return Err(GiveFault::Ranges);
        };
        Ok(Ledger {
            number: self.number,
            next_serial: self.next_serial + 1,
            free,
            givers: copy_of(self.givers.as_slice()),
        })
    }

    /// Its next ticket, of a range that it may give.
    pub(crate) fn next_ticket(&self, receiver: u16, range: Range) -> Ticket
        requires { IsTrue (test_of_range range) }
        ensures { result ≡ ticket_of self.now receiver range }
    {
        Ticket {
            giver: self.number,
            serial: self.next_serial,
            receiver,
            range,
        }
    }

    /// The ledger after a ticket is taken.
    pub(crate) fn after_take(&self, ticket: Ticket) -> Result<Ledger, TakeFault>
        ensures value { result ≡ take_verdict self.now ticket }
        ensures range { IsTrue (test_of_range ticket.range) }
        ensures sound { IfOk result (λ next. IsTrue (is_sound next)) }
    {
        if ticket.receiver != self.number || ticket.giver == ticket.receiver {
            return Err(TakeFault::Receiver);
        }
        let last = Giver {
            number: ticket.giver,
            serial: ticket.serial,
        };
        if is_old(self.givers.as_slice(), last) {
            return Err(TakeFault::Old);
        }
        if has_free(self.free.as_slice(), ticket.range) {
            return Err(TakeFault::Overlap);
        }
        let Ok(free) = union_of(self.free.as_slice(), ticket.range) else {
            return Err(TakeFault::Ranges);
        };
        let Ok(givers) = givers_with(self.givers.as_slice(), last) else {
            return Err(TakeFault::Givers);
        };
        Ok(Ledger {
            number: self.number,
            next_serial: self.next_serial,
            free,
            givers,
        })
    }
}
