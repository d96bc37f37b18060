//! Laws of the machine: each function's contract is the law. They speak of definitions alone, so the functions do
//! nothing, or call a law below.

ghost use Rattle.dm_event_history.specs.Headline.{EachCleanDeskGives, EachStepKeepsClean, EachStepPrints, EachRunIsSound, EachRunIsTrue, EachRunKeepsNumbers, EachStepIsSound, EachStepKeepsNumbers};
ghost use Rattle.dm_event_history.specs.Told.{EachExhaustedIsSo, EachFailedFailed, EachRunCountsTickets, EachRunIsAsTold, EachRunTakesOnce, EachStepIsLegal, EachTakeIsLater, EachStepIsRefusedSo, NothingIsOpenButMemory, EachFairDeskIsBetween, EachFairReplyIsSafe};
ghost use Rattle.dm_event_history.specs.Worked.{AreNone, AreRuns};

use dm_size::Size;
use dm_symbol::laws::grid_carries_its_words;
use std::alloc::Allocator;

/// Nothing is open but memory: two steps from one relay by one event end alike, or one of them was refused memory. And
/// a reply fixes the step.
pub fn only_memory<A: Allocator>()
    ensures { NothingIsOpenButMemory A }
{}

/// Worked runs of the machine; and runs that would be answered otherwise, and are none.
pub fn worked_runs<A: Allocator>()
    ensures runs { AreRuns A }
    ensures none { AreNone A }
{
    grid_carries_its_words(Size::Side12);
}

/// A desk stays clean; what a clean desk gives is what was printed.
pub fn clean_desks<A: Allocator>()
    ensures printed { EachStepPrints A }
    ensures stays { EachStepKeepsClean A }
    ensures gives { EachCleanDeskGives A }
{}

/// A step moves numbers, and makes or ends none; and no label leaves twice. So each number that a printer began with is
/// in just one place, and any other in none.
pub fn numbers_and_labels<A: Allocator>()
    ensures placed { EachStepKeepsNumbers A }
    ensures sound { EachStepIsSound A }
    ensures places { EachRunKeepsNumbers A }
{}

/// The headline: in every run of a relay whose printers begin with disjoint ranges no ID is printed twice,
/// and whatever document a clean desk gives for an ID is the one document that was printed under it. And as
/// long as each scan that may have saved its page is fair, all desks are clean.
pub fn headline<A: Allocator>()
    ensures sound { EachRunIsSound A }
    ensures moments { EachRunIsTrue A }
{}

/// As long as each scan that may have saved its page was fair, desks hold what was scanned, imported and forgotten
/// there tells, and each reply but that to a scan that is not fair agrees with it, and with what was printed.
pub fn safe_replies<A: Allocator>()
    ensures held { EachFairDeskIsBetween A }
    ensures replies { EachFairReplyIsSafe A }
{}

/// The replies of a run tell which of its printers and desks are down, and which have failed. `Failed` is answered only
/// by one that answered `Save` since it was last restarted. And each reply is given only where it may be.
pub fn as_told<A: Allocator>()
    ensures told { EachRunIsAsTold A }
    ensures failed { EachFailedFailed A }
    ensures legal { EachStepIsLegal A }
{}

/// Why events are refused. A fair scan is refused as its label only for its finder patterns. `Save` comes of a fault of
/// the save alone, and `TooLong` of a document without parts. `Exhausted` comes only where no number is free: all that
/// the printer began with and took is used and given away.
pub fn reasons<A: Allocator>()
    ensures refused { EachStepIsRefusedSo A }
    ensures exhausted { EachExhaustedIsSo A }
{}

/// No ticket is taken twice, and no take is refused since a number of its ticket is free at its receiver. What a
/// printer stores of tickets are those that it gave and took: its next serial is their number, and of each giver it has
/// the greatest serial.
pub fn tickets<A: Allocator>()
    ensures once { EachRunTakesOnce A }
    ensures counted { EachRunCountsTickets A }
    ensures later { EachTakeIsLater A }
{}
