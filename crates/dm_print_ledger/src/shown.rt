//! What a ledger says to somebody who only looks at it.

ghost use Rattle.std.specs.Prelude.{◌≡◌, ◌≢◌, ◌==◌, ◌&&◌, not, Err, Ok, IsTrue, IfOk};
ghost use Rattle.std.specs.List.{list_any, All};
ghost use Rattle.dm_print_ledger.specs.Ledger.{is_old as test_of_old, read_ledger, ShownView, is_sound, free_count, is_range};
ghost use Rattle.dm_print_ledger.specs.Verdicts.{LoadsLedger, are_of_one, is_behind as test_of_behind, lacks_gift, is_of as test_of_number, lacks_ticket, numbered, share_numbers, share_ticket, show_verdict, shown_of_ticket};

use crate::fault::OpenFault;
use crate::format::{first_ledger, second_ledger};
use crate::free::has_free;
use crate::giver::{Giver, is_old};
use crate::ledger::Ledger;
use crate::limits::MOST_BYTES;
use crate::range::Range;
use crate::ticket::Ticket;
use arrayvec::ArrayVec;
use dm_store::Store;
use std::marker::Model;

/// What a store holds of a printer, to be looked at: nothing is saved by it, and no printer goes on with it.
#[derive(Drop)]
pub struct Shown {
    number: Option<u16>,
    ledger: Ledger,
}

impl Model for Shown {
    ghost Value = { ShownView };

    ghost view = { λ shown. record {
      number = shown.number;
      next_serial = shown.ledger.next_serial;
      free = shown.ledger.free;
      givers = shown.ledger.givers;
    } };
}

impl Shown {
    /// What the ledger says that the store holds. It takes no memory but the store's. Until the store is settled, a stop
    /// may take back what is shown.
    ///
    /// # Errors
    /// The load's `Device` or `Memory`, `Absent`, `NotALedger`, `Version` and `Damaged`: the first of these, in this
    /// order, that applies.
    pub fn load<S: Store>(store: &mut S) -> Result<Shown, OpenFault>
        ensures loads { LoadsLedger (S.state store.old) (show_verdict (S.state store.old).content) result }
        ensures same { S.state store.new ≡ S.state store.old }
    {
        match store.load(MOST_BYTES)? {
            None => Err(OpenFault::Absent),
            Some(bytes) => shown_in(bytes.as_slice()),
        }
    }

    /// What bytes say, if they are those of a ledger.
    ///
    /// # Errors
    /// `NotALedger`, `Version` and `Damaged`: the first of these, in this order, that applies.
    pub fn read(bytes: &[u8]) -> Result<Shown, OpenFault>
        ensures { result ≡ read_ledger bytes.now }
    {
        shown_in(bytes)
    }

    /// What a ticket shows: that its giver gave it, and, if it is open, that its IDs are free.
    pub fn of_ticket(ticket: Ticket, is_open: bool) -> Shown
        ensures { result ≡ shown_of_ticket ticket is_open }
    {
        let (mut free, mut givers) = (ArrayVec::new(), ArrayVec::new());
        if is_open {
            free.push(ticket.range);
        }
        givers.push(Giver {
            number: ticket.giver,
            serial: ticket.serial,
        });
        let ledger = Ledger {
            number: 0,
            next_serial: 0,
            free,
            givers,
        };
        Shown {
            number: None,
            ledger,
        }
    }

    /// Whether it is the ledger of the printer of a number.
    pub fn is_of(&self, number: u16) -> bool
        ensures { result ≡ test_of_number self.now number }
    {
        matches!(self.number, Some(own) if own == number)
    }

    /// Whether a ticket is for its printer, which has not taken it.
    pub fn lacks(&self, ticket: Ticket) -> bool
        ensures { result ≡ lacks_ticket self.now ticket }
    {
        let last = Giver {
            number: ticket.giver,
            serial: ticket.serial,
        };
        self.is_of(ticket.receiver) && !is_old(self.givers(), last)
    }

    /// Whether both are ledgers of one printer.
    pub fn is_of_one_with(&self, other: &Shown) -> bool
        ensures { result ≡ are_of_one self.now other.now }
    {
        match self.number {
            Some(number) => other.is_of(number),
            None => false,
        }
    }

    /// Whether some ID is free in both.
    pub fn shares_numbers(&self, other: &Shown) -> bool
        ensures { result ≡ share_numbers self.now other.now }
    {
        self.free().iter().any(|one| has_free(other.free(), *one))
    }

    /// Whether both show the same ticket.
    pub fn shares_ticket(&self, other: &Shown) -> bool
        ensures { result ≡ share_ticket self.now other.now }
    {
        self.givers()
            .iter()
            .any(|last| is_among(other.givers(), *last))
    }

    // Whether the other shows a ticket of its printer that it did not give yet.
    fn lacks_gift(&self, other: &Shown) -> bool
        ensures { result ≡ lacks_gift self.now other.now }
    {
        other.givers().iter().any(|last| self.is_of(last.number) && self.given() <= last.serial)
    }

    // Whether the other has taken a ticket that it did not take yet.
    fn lacks_taken(&self, other: &Shown) -> bool
        ensures { result
            ≡ list_any (λ last. not (test_of_old self.now.givers last.number last.serial)) other.now.givers }
    {
        other
            .givers()
            .iter()
            .any(|last| !is_old(self.givers(), *last))
    }

    /// Whether the other shows that it is behind: by a ticket that its printer gave, or as a ledger of the same printer
    /// that has given or taken more.
    pub fn is_behind(&self, other: &Shown) -> bool
        ensures { result ≡ test_of_behind self.now other.now }
    {
        self.lacks_gift(other)
            || (self.is_of_one_with(other)
                && (self.given() < other.given() || self.lacks_taken(other)))
    }

    /// The ledger with which the printer of a number goes on.
    pub(crate) fn of_number(self, number: u16) -> Result<Ledger, OpenFault>
        ensures value { result ≡ numbered number (Ok self) }
        ensures sound { IfOk result (λ ledger. IsTrue (is_sound ledger)) }
    {
        let Shown {
            number: shown,
            mut ledger,
        } = self;
        if shown.unwrap_or(number) != number {
            return Err(OpenFault::Number);
        }
        ledger.number = number;
        Ok(ledger)
    }

    /// The printer's number. A ledger of version 1 has none.
    pub fn number(&self) -> Option<u16>
        ensures { result ≡ self.now.number }
    {
        self.number
    }

    /// How many IDs are free.
    pub fn left(&self) -> u32
        ensures { result ≡ free_count self.now.free }
    {
        self.ledger.left()
    }

    /// The free IDs, by rising number.
    pub fn free(&self) -> &[Range]
        ensures same { result.now ≡ self.now.free }
        ensures each { All (λ range. IsTrue (is_range range)) result.now }
    {
        self.ledger.ranges()
    }

    /// How many tickets the printer gave.
    pub fn given(&self) -> u16
        ensures { result ≡ self.now.next_serial }
    {
        self.ledger.next_serial
    }

    /// The printers from which it took tickets, by rising number.
    pub fn givers(&self) -> &[Giver]
        ensures { result.now ≡ self.now.givers }
    {
        self.ledger.givers.as_slice()
    }
}

// Whether a ticket is one of these.
fn is_among(givers: &[Giver], ticket: Giver) -> bool
    ensures { result ≡ list_any (λ its. (ticket.number == its.number) && (ticket.serial == its.serial)) givers.now }
{
    givers.iter().any(|its| ticket.number == its.number && ticket.serial == its.serial)
}

// What bytes say, if they are those of a ledger.
fn shown_in(bytes: &[u8]) -> Result<Shown, OpenFault>
    ensures value { result ≡ read_ledger bytes.now }
    ensures loaded { (result ≢ Err OpenFault.Device) × (result ≢ Err OpenFault.Memory) }
{
    if !bytes.starts_with(b"DMLG") {
        return Err(OpenFault::NotALedger);
    }
    if bytes.len() < 5 {
        return Err(OpenFault::Damaged);
    }
    match bytes[4] {
        1 => match first_ledger(bytes) {
            Some(ledger) => Ok(Shown {
                number: None,
                ledger,
            }),
            None => Err(OpenFault::Damaged),
        },
        2 => match second_ledger(bytes) {
            Some(ledger) => Ok(Shown {
                number: Some(ledger.number),
                ledger,
            }),
            None => Err(OpenFault::Damaged),
        },
        _ => Err(OpenFault::Version),
    }
}
