//! The laws: each function's contract is the law.

ghost use Rattle.relay_program_runs.specs.Law.{EachIdHasOneDocument, EachPrintHasADocument, NoIdIsPrintedTwice, WhatIsDeliveredIsTheDocument, WhatIsDeliveredWasPrinted};
ghost use Rattle.relay_program_runs.specs.Lines.{AllIsOut, EachIdOfLinesHasOneDocument, NoLinePrintsAnIdAgain, WhatLinesDeliverIsTheDocument, WhatLinesDeliverWasPrinted, WhatLinesLetOutIsTheDocument};
ghost use Rattle.relay_program_runs.specs.InTurn.{WhatLinesRunInTurnFindWhatWasLeft, WhatRunsInTurnFindsWhatWasLeft};
ghost use Rattle.relay_program_runs.specs.Where.{NoIdIsInTwoPlaces, NoIdOfLinesIsInTwoPlaces};
ghost use Rattle.relay_program_runs.specs.Written.{WhatIsOutCounts, WhatIsWrittenWasPrinted};
ghost use Rattle.relay_program_runs.specs.Worked.{RefusalsCountNot, SayAtLeast};
ghost use Rattle.dm_size.specs.declared.size.Size.{Size};
ghost use Rattle.dm_symbol.specs.Correction.{CarriesItsWords};

use dm_size::Size;
use dm_symbol::laws::grid_carries_its_words;
use std::alloc::Allocator;

/// No ID is printed twice.
pub fn no_id_is_printed_twice<A: Allocator>()
    ensures { NoIdIsPrintedTwice A }
{}

/// No ID is in two of these places: free at a ledger, on a ticket that waits to be taken, printed.
pub fn no_id_is_in_two_places<A: Allocator>()
    ensures { NoIdIsInTwoPlaces A }
{}

/// What is delivered was printed.
pub fn what_is_delivered_was_printed<A: Allocator>()
    ensures { WhatIsDeliveredWasPrinted A }
{}

// In each size the grid of the codewords of a symbol carries these codewords.
fn each_grid_carries_its_words()
    ensures { (size : Size) → CarriesItsWords size }
{
    grid_carries_its_words(Size::Side10);
    grid_carries_its_words(Size::Side12);
    grid_carries_its_words(Size::Side14);
    grid_carries_its_words(Size::Side16);
    grid_carries_its_words(Size::Side18);
    grid_carries_its_words(Size::Side20);
    grid_carries_its_words(Size::Side22);
    grid_carries_its_words(Size::Side24);
    grid_carries_its_words(Size::Side26);
    grid_carries_its_words(Size::Side32);
    grid_carries_its_words(Size::Side36);
    grid_carries_its_words(Size::Side40);
    grid_carries_its_words(Size::Side44);
    grid_carries_its_words(Size::Side48);
    grid_carries_its_words(Size::Side52);
    grid_carries_its_words(Size::Side64);
    grid_carries_its_words(Size::Side72);
    grid_carries_its_words(Size::Side80);
    grid_carries_its_words(Size::Side88);
    grid_carries_its_words(Size::Side96);
    grid_carries_its_words(Size::Side104);
    grid_carries_its_words(Size::Side120);
    grid_carries_its_words(Size::Side132);
}

/// There is one document to an ID, and each print has one.
pub fn each_id_has_one_document<A: Allocator>()
    ensures one { EachIdHasOneDocument A }
    ensures some { EachPrintHasADocument A }
{
    each_grid_carries_its_words();
}

/// What is delivered is that document.
pub fn what_is_delivered_is_the_document<A: Allocator>()
    ensures { WhatIsDeliveredIsTheDocument A }
{
    each_grid_carries_its_words();
}

/// Nor is an ID that lines of the program use.
pub fn no_id_of_lines_is_in_two_places<A: Allocator>()
    ensures { NoIdOfLinesIsInTwoPlaces A }
{}

/// No line of the program prints an ID that was printed before.
pub fn no_line_prints_an_id_again<A: Allocator>()
    ensures { NoLinePrintsAnIdAgain A }
{}

/// What lines of the program deliver was printed.
pub fn what_lines_deliver_was_printed<A: Allocator>()
    ensures { WhatLinesDeliverWasPrinted A }
{}

/// There is one document to an ID that lines print.
pub fn each_id_of_lines_has_one_document<A: Allocator>()
    ensures { EachIdOfLinesHasOneDocument A }
{
    each_grid_carries_its_words();
}

/// What lines of the program deliver is that document.
pub fn what_lines_deliver_is_the_document<A: Allocator>()
    ensures { WhatLinesDeliverIsTheDocument A }
{
    each_grid_carries_its_words();
}

/// What leaves a line that delivers is that document.
pub fn what_lines_let_out_is_the_document<A: Allocator>()
    ensures { WhatLinesLetOutIsTheDocument A }
{
    each_grid_carries_its_words();
}

/// Commands that run one after another find what was left.
pub fn what_runs_in_turn_finds_what_was_left<A: Allocator>()
    ensures { WhatRunsInTurnFindsWhatWasLeft A }
{}

/// And so do lines of the program.
pub fn what_lines_run_in_turn_find_what_was_left<A: Allocator>()
    ensures { WhatLinesRunInTurnFindWhatWasLeft A }
{}

/// The output of a command is out where its line exits with 0.
pub fn all_is_out<A: Allocator>()
    ensures { AllIsOut A }
{}

/// What `deliver` wrote is nothing, or a first part of a document that was printed.
pub fn what_is_written_was_printed<A: Allocator>()
    ensures { WhatIsWrittenWasPrinted A }
{}

/// What a command wrote is of what counts as let out.
pub fn what_is_out_counts<A: Allocator>()
    ensures { WhatIsOutCounts A }
{}

/// What is refused counts neither as taken in nor as made.
pub fn refusals()
    ensures { RefusalsCountNot }
{}

/// The words of the laws say as much as this.
pub fn at_least<A: Allocator>()
    ensures { SayAtLeast A }
{}
