//! Printers, and the one way in which they save.

ghost use Rattle.std.specs.Prelude.{◌≡◌, ◌≤◌, ◌+◌, false, ◌<◌, MatchResult};
ghost use Rattle.dm_print_ledger.specs.Ledger.{PrinterView, free_count};
ghost use Rattle.dm_print_ledger.specs.Verdicts.{PrinterIsInOrder, AreLastFree, IsLongest, MayLack, SavesLedger};
ghost use Rattle.dm_store.specs.Saved.{save_plan_of};

use crate::format::bytes_of;
use crate::free::{last_of, longest};
use crate::ledger::Ledger;
use crate::limits::GREATEST;
use crate::range::Range;
use dm_store::{MemStore, NextSave, Store, StoreFault};
use std::alloc::{Allocator, Global};
use std::marker::Model;

/// A printer: it prints each document under an ID of its own, and gives free IDs to other
/// printers and takes them from others. Its store holds what it remembers.
#[derive(Drop)]
pub struct Printer<S: Store, A: Allocator + Copy = Global> {
    pub(crate) alloc: A,
    pub(crate) store: S,
    pub(crate) ledger: Ledger,
    /// Whether a save failed, after which it saves no more.
    pub(crate) is_failed: bool,
}

impl<S: Store, A: Allocator + Copy> Model for Printer<S, A> {
    ghost Value = { PrinterView };

    ghost view = { λ p. record { saved = S.state p.store; ledger = p.ledger; is_failed = p.is_failed } };

    ghost invariant = { λ p. PrinterIsInOrder
        (record { saved = S.state p.store; ledger = p.ledger; is_failed = p.is_failed }) };
}

impl<S: Store, A: Allocator + Copy> Printer<S, A> {
    /// How many IDs are free, as last known to be saved: 0 to 64,516.
    pub fn left(&self) -> u32
        ensures value { result ≡ free_count self.now.ledger.free }
        ensures bound { result ≤ GREATEST + 1 }
        ensures order { PrinterIsInOrder self.now }
    {
        self.ledger.left()
    }

    /// The last `count` free IDs in a row.
    ///
    /// # Errors
    /// There are none, or none were asked for. It has how many the longest range of free IDs has.
    pub fn last_free(&self, count: u16) -> Result<Range, u32>
        ensures { MatchResult result (AreLastFree self.now.ledger.free count)
            (λ most. IsLongest self.now.ledger.free most × (1 ≤ count → most < count)) }
    {
        if count == 0 {
            return Err(longest(self.ledger.ranges()));
        }
        match last_of(self.ledger.ranges(), count) {
            Some(range) => Ok(range),
            None => Err(longest(self.ledger.ranges())),
        }
    }

    /// Gives its store back.
    pub fn close(self) -> S
        ensures { S.state result ≡ self.saved }
    {
        let Printer {
            alloc: _,
            store,
            ledger: _,
            is_failed: _,
        } = self;
        store
    }

    /// Saves a ledger, and goes on with it.
    ///
    /// # Errors
    /// `no_memory` where the store was refused its memory, `failed` where it met a device fault.
    pub(crate) fn save<F: Copy>(&mut self, next: Ledger, no_memory: F, failed: F) -> Result<(), F>
        requires { self.old.is_failed ≡ false }
        ensures { SavesLedger (MayLack self.old) no_memory failed next self.old result self.new }
    {
        let bytes = bytes_of(&next);
        match self.store.replace(bytes.as_slice()) {
            Ok(()) => {
                self.ledger = next;
                Ok(())
            }
            Err(StoreFault::Memory) => Err(no_memory),
            Err(StoreFault::Device) => {
                self.is_failed = true;
                Err(failed)
            }
        }
    }
}

impl<A: Allocator + Copy> Printer<MemStore<A>, A> {
    /// Sets what the next save does, and that one alone.
    pub fn set_next(&mut self, next: NextSave)
        ensures { self.new ≡ record self.old { saved = record self.old.saved { save_plan = save_plan_of next } } }
    {
        self.store.set_next(next);
    }
}
