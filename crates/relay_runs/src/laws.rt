//! Laws of commands one after another: each function's contract is the law.

ghost use Rattle.relay_runs.specs.Runs.{EachGiveIsARun, EachPrintIsARun, EachTakeIsARun};

use std::alloc::Allocator;

/// A print over an honest store that holds what a printer stores does to the store, and lets out, what a run of the
/// machine does: nothing where the printer was not called, and else a restart and a call.
pub fn prints<A: Allocator>()
    ensures { EachPrintIsARun A }
{}

/// So does a give.
pub fn gives<A: Allocator>()
    ensures { EachGiveIsARun A }
{}

/// So does a take, if a ticket that it took in, or may have, left before.
pub fn takes<A: Allocator>()
    ensures { EachTakeIsARun A }
{}
