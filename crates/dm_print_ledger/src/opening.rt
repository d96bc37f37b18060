//! Printers that go on.

ghost use Rattle.std.specs.Prelude.{◌≡◌, Ok, Err, IfErr, MatchResult};
ghost use Rattle.dm_print_ledger.specs.Verdicts.{PrinterOpens};

use crate::fault::OpenFault;
use crate::printer::Printer;
use crate::shown::Shown;
use dm_store::Store;
use std::alloc::Allocator;

/// No printer was opened: why, and the store.
#[derive(Drop)]
pub struct OpenRefused<S: Store> {
    pub fault: OpenFault,
    pub store: S,
}

impl<S: Store, A: Allocator + Copy> Printer<S, A> {
    /// The printer of a number whose ledger the store holds. A ledger of version 1 has no number and is any printer's;
    /// the next save makes it one of version 2. It takes no memory but the store's.
    ///
    /// # Errors
    /// The load's `Device` or `Memory`, `Absent`, `NotALedger`, `Version`, `Damaged`, and `Number`: the first of these,
    /// in this order, that applies. The store is as before.
    pub fn open(alloc: A, store: S, number: u16) -> Result<Printer<S, A>, OpenRefused<S>>
        ensures opens { MatchResult result
            (λ printer. PrinterOpens (S.state store) number (Ok printer))
            (λ refused. PrinterOpens (S.state store) number (Err refused.fault)) }
        ensures back { IfErr result (λ refused. S.state refused.store ≡ S.state store) }
    {
        let mut store = store;
        let shown = match Shown::load(&mut store) {
            Ok(shown) => shown,
            Err(fault) => return Err(OpenRefused { fault, store }),
        };
        match shown.of_number(number) {
            Ok(ledger) => Ok(Printer {
                alloc,
                store,
                ledger,
                is_failed: false,
            }),
            Err(fault) => Err(OpenRefused { fault, store }),
        }
    }
}
