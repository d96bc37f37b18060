//! `relay left`: what a ledger holds.

ghost use Rattle.std.specs.Prelude.{◌≡◌, IsOk, IsTrue};
ghost use Rattle.std.specs.List.{All, flat_map};
ghost use Rattle.dm_print_ledger.specs.Ledger.{is_range};
ghost use Rattle.dm_print_ledger.specs.Verdicts.{LoadsLedger, show_verdict};
ghost use Rattle.relay_printer_commands.specs.Printers.{free_line, shown_lines, took_line, EndsLeft, ledger_at};
ghost use Rattle.relay_shared.specs.Command.{PutsText};

use crate::lines::{put_free, put_given, put_left, put_number, put_took};
use dm_print_ledger::{Giver, OpenFault, Range, Shown};
use dm_store::Store;
use relay_shared::{Ended, Streams, refuse, status_after};
use relay_streams::{Output, WriteFault};
use std::io::{Read, Write};

fn put_ranges<W: Write>(output: &mut Output<W>, ranges: &[Range]) -> Result<(), WriteFault>
    requires { All (λ range. IsTrue (is_range range)) ranges.now }
    ensures { PutsText (flat_map free_line ranges.now) output.old result output.new }
{
    for range in ranges {
        put_free(output, *range)?;
    }
    Ok(())
}

fn put_givers<W: Write>(output: &mut Output<W>, givers: &[Giver]) -> Result<(), WriteFault>
    ensures { PutsText (flat_map took_line givers.now) output.old result output.new }
{
    for giver in givers {
        put_took(output, *giver)?;
    }
    Ok(())
}

fn put_shown<W: Write>(output: &mut Output<W>, shown: &Shown) -> Result<(), WriteFault>
    ensures { PutsText (shown_lines shown.now) output.old result output.new }
{
    put_number(output, shown.number())?;
    put_left(output, shown.left())?;
    put_ranges(output, shown.free())?;
    put_given(output, shown.given())?;
    put_givers(output, shown.givers())
}

// What the ledger that a store holds says, settled.
fn shown_settled<S: Store>(store: &mut S) -> Result<Shown, OpenFault>
    ensures loads { LoadsLedger (S.state store.old) (show_verdict (S.state store.old).content) result }
    ensures same { S.state store.new ≡ S.state store.old }
    ensures settled { IsOk result → S.is_settled store.new }
{
    let shown = Shown::load(store)?;
    store.settle()?;
    Ok(shown)
}

/// Prints what the ledger in a store holds, a line for each fact, or the line `refused NAME`. Nothing is saved, and no
/// memory is taken but the store's.
pub fn left_command<S: Store, R: Read, W: Write, E: Write>(
    mut store: S,
    streams: &mut Streams<R, W, E>,
) -> Ended<S>
    ensures ends { EndsLeft (ledger_at (S.state store) streams.old) result.status
        (ledger_at (S.state result.store) streams.new) }
    // No stop takes back what is shown.
    ensures settled { result.status ≡ 0 → S.is_settled result.store }
{
    match shown_settled(&mut store) {
        Ok(shown) => {
            let status = status_after(put_shown(&mut streams.output, &shown));
            Ended { status, store }
        }
        Err(fault) => {
            let status = refuse(&mut streams.output, fault.name());
            Ended { status, store }
        }
    }
}
