//! Printers that are new.

ghost use Rattle.std.specs.Prelude.{◌≡◌, Ok, Err, IsTrue, MatchResult};
ghost use Rattle.dm_print_ledger.specs.Verdicts.{SavesFirst, opening, Creates};
ghost use Rattle.dm_print_ledger.specs.Ledger.{is_range as test_of_range};

use crate::fault::CreateFault;
use crate::format::bytes_of;
use crate::ledger::Ledger;
use crate::limits::MOST_BYTES;
use crate::printer::Printer;
use crate::range::{Range, is_range};
use arrayvec::ArrayVec;
use dm_store::{Store, StoreFault, load_settled};
use std::alloc::Allocator;

/// No printer was created: why, and the store.
#[derive(Drop)]
pub struct CreateRefused<S: Store> {
    pub fault: CreateFault,
    pub store: S,
}

impl<S: Store, A: Allocator + Copy> Printer<S, A> {
    /// The printer of a number to which a range is free, on a store that holds nothing: its first ledger is saved. It
    /// takes no memory but the store's.
    ///
    /// # Errors
    /// `Range`, the load's `Device` or `Memory`, `Exists`, and the save's `Device` or `Memory`: the first of these, in
    /// this order, that applies. The store is as before, but after the save's `Device` it holds nothing or the new
    /// ledger.
    pub fn create(
        alloc: A,
        store: S,
        number: u16,
        range: Range,
    ) -> Result<Printer<S, A>, CreateRefused<S>>
        ensures { MatchResult result
            (λ printer. Creates (S.state store) number range (Ok printer) printer.saved)
            (λ refused. Creates (S.state store) number range (Err refused.fault) (S.state refused.store)) }
    {
        if !is_range(range) {
            let fault = CreateFault::Range;
            return Err(CreateRefused { fault, store });
        }
        let mut store = store;
        let ledger = opening_of(number, range);
        match save_first(&mut store, &ledger) {
            Ok(()) => Ok(Printer {
                alloc,
                store,
                ledger,
                is_failed: false,
            }),
            Err(fault) => Err(CreateRefused { fault, store }),
        }
    }
}

// The ledger of a printer of whose range nothing was used.
fn opening_of(number: u16, range: Range) -> Ledger
    requires { IsTrue (test_of_range range) }
    ensures { result ≡ opening number range }
{
    let mut free = ArrayVec::new();
    free.push(range);
    Ledger {
        number,
        next_serial: 0,
        free,
        givers: ArrayVec::new(),
    }
}

// Saves a first ledger on a store that holds nothing. That it holds something is told once no stop takes that back.
fn save_first<S: Store>(store: &mut S, ledger: &Ledger) -> Result<(), CreateFault>
    ensures { SavesFirst (S.state store.old) ledger.now result (S.state store.new) }
{
    match load_settled(store, MOST_BYTES) {
        Ok(None) => {}
        Ok(Some(_)) => return Err(CreateFault::Exists),
        Err(StoreFault::Device) => return Err(CreateFault::Device),
        Err(StoreFault::Memory) => return Err(CreateFault::Memory),
    }
    match store.replace(bytes_of(ledger).as_slice()) {
        Ok(()) => Ok(()),
        Err(StoreFault::Device) => Err(CreateFault::Device),
        Err(StoreFault::Memory) => Err(CreateFault::Memory),
    }
}
