//! IDs that move from one printer to another.

ghost use Rattle.std.specs.Prelude.{◌≡◌, false, IsTrue};
ghost use Rattle.dm_print_ledger.specs.Ledger.{is_range};
ghost use Rattle.dm_print_ledger.specs.Verdicts.{GivesTicket, TakesTicket};

use crate::fault::{GiveFault, TakeFault};
use crate::printer::Printer;
use crate::range::Range;
use crate::ticket::Ticket;
use dm_store::Store;
use std::alloc::Allocator;

impl<S: Store, A: Allocator + Copy> Printer<S, A> {
    /// Gives the numbers of a range to another printer: they are saved as gone, and then the ticket is given.
    ///
    /// # Errors
    /// The first that applies, in the order of `GiveFault`. After `Save` no ticket was given, and `print`, `give` and
    /// `take` answer `Failed` until the printer is closed and opened again; after all others it is as before.
    pub fn give(&mut self, receiver: u16, range: Range) -> Result<Ticket, GiveFault>
        ensures { GivesTicket self.old receiver range result self.new }
    {
        if self.is_failed {
            return Err(GiveFault::Failed);
        }
        let next = self.ledger.after_give(receiver, range)?;
        let ticket = self.ledger.next_ticket(receiver, range);
        self.save(next, GiveFault::Memory, GiveFault::Save)?;
        Ok(ticket)
    }

    /// Takes a ticket: its numbers are saved as free, and its serial as the last from its giver.
    ///
    /// # Errors
    /// The first that applies, in the order of `TakeFault`. After `Save` the saved ledger has taken the ticket or has
    /// not, and `print`, `give` and `take` answer `Failed` until the printer is closed and opened again; after all
    /// others it is as before.
    pub fn take(&mut self, ticket: &Ticket) -> Result<(), TakeFault>
        ensures takes { TakesTicket self.old ticket.now result self.new }
        ensures range { self.old.is_failed ≡ false → IsTrue (is_range ticket.now.range) }
    {
        if self.is_failed {
            return Err(TakeFault::Failed);
        }
        let next = self.ledger.after_take(*ticket)?;
        self.save(next, TakeFault::Memory, TakeFault::Save)
    }
}
