//! Laws of printers: each function's contract is the law.

ghost use Rattle.std.specs.Prelude.{◌≡◌};
ghost use Rattle.dm_print_ledger.specs.Verdicts.{RangesAreNumbers, FirstIsLeast, GiversAreNoted, SilenceIsExact};
ghost use Rattle.dm_print_ledger.specs.Ledger.{ReadsWhatIsSpelled};

use crate::limits::{GREATEST, MOST_BYTES, MOST_GIVERS, MOST_RANGES, TICKET_BYTES};

/// The limits by number: no definition moves with a constant.
pub fn limits_by_number()
    ensures greatest { GREATEST ≡ 64515 }
    ensures ranges { MOST_RANGES ≡ 64 }
    ensures givers { MOST_GIVERS ≡ 64 }
    ensures bytes { MOST_BYTES ≡ 525 }
    ensures ticket { TICKET_BYTES ≡ 10 }
{}

/// What is done to lists of ranges and of givers, told of each number and each giver; and what two ledgers, or a ledger
/// and a ticket, show of one another.
pub fn numbers_and_givers()
    ensures ranges { RangesAreNumbers }
    ensures least { FirstIsLeast }
    ensures givers { GiversAreNoted }
    ensures silence { SilenceIsExact }
{}

/// Bytes are read exactly where they are those of a sound ledger, of either version; what is read is that ledger.
pub fn what_is_spelled_is_read()
    ensures { ReadsWhatIsSpelled }
{}
