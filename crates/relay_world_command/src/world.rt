//! `relay world`: a world of printers and desks, by a script.

ghost use Rattle.std.specs.Prelude.{◌≡◌, ◌||◌, true, false, List, Result, IfOk, IfErr, OnErr};
ghost use Rattle.std.specs.List.{flat_map};
ghost use Rattle.relay_streams.specs.Streams.{TakesPart};
ghost use Rattle.relay_streams.specs.declared.fault.WriteFault.{WriteFault};
ghost use Rattle.dm_event_world.specs.Shows.{IsWatched, HasWorldFault};
ghost use Rattle.dm_event_world.specs.declared.answers.Answer.{Answer};
ghost use Rattle.relay_shared.specs.Command.{PutsText};
ghost use Rattle.relay_world_command.specs.World.{answer_line, has_refusal, is_refused_answer, EndsWorld};

use crate::reply_lines::{is_refused_answer, put_answer};
use dm_event_world::{Answer, Listener, WorldFault, watch};
use relay_script::{SCRIPT_BYTES, Script, read_script};
use relay_shared::{Streams, refuse};
use relay_streams::Output;
use std::alloc::Allocator;
use std::io::{Read, Write};

/// One byte more than a script has at most.
pub const INPUT_BYTES: usize = 1_048_577;

// Writes the line of each answer as it comes, and keeps whether one of them is of a refusal.
#[derive(Drop)]
struct Lines<'a, W: Write> {
    output: &'a mut Output<W>,
    refused: bool,
}

impl<A: Allocator + Copy, W: Write> Listener<A> for Lines<'_, W> {
    // The same output gets the line, unless it has failed before, and a refusal is kept.
    ghost hears = { λ before answer after. (after.output.ghost_name ≡ before.output.ghost_name)
        × (after.refused ≡ (before.refused || is_refused_answer answer))
        × (before.output.now.has_failed ≡ false → (put : Result (Unit {0}) WriteFault)
        × PutsText (answer_line answer) before.output.now put after.output.now)
        × (before.output.now.has_failed ≡ true → after.output.now ≡ before.output.now) };

    fn hear(&mut self, answer: &Answer<A>) {
        self.refused |= is_refused_answer(answer);
        if self.output.has_failed() {
            return;
        }
        let _ = put_answer(self.output, answer);
    }
}

// Plays the events of a script, writes the line of each answer, and says whether one of them is of a refusal.
fn play<A: Allocator + Copy, W: Write>(
    alloc: A,
    script: &Script<A>,
    output: &mut Output<W>,
) -> Result<bool, WorldFault>
    ensures played { IfOk result (λ refused. (answers : List (Answer A))
        × IsWatched script.now.ranges.items script.now.capacities.items script.now.events.items answers
        × (refused ≡ has_refusal answers) × (put : Result (Unit {0}) WriteFault)
        × PutsText (flat_map answer_line answers) output.old put output.new) }
    ensures refused { IfErr result (HasWorldFault script.now.ranges.items script.now.capacities.items) }
    ensures silent { OnErr result (output.new ≡ output.old) }
{
    let refused = false;
    let mut lines = Lines { output, refused };
    let (ranges, capacities) = (&script.ranges, &script.capacities);
    match watch(alloc, ranges, capacities, &script.events, &mut lines) {
        Ok(()) => Ok(lines.refused),
        Err(fault) => Err(fault),
    }
}

/// Reads a script, at most 1,048,577 bytes of it, begins its world, and prints a line for each of its events: what was
/// answered, or `refused NAME`. The line begins with `! ` if the event is a scan in which more codewords of a block are
/// wrong than can be corrected; if memory to find that out is refused, the line is `refused Memory` and the event does
/// not come. If the text is no script, or its world can't begin, one line `refused NAME` is written. The exit status is
/// 1 if a line is of a refusal.
pub fn world_command<A: Allocator + Copy, R: Read, W: Write, E: Write>(
    alloc: A,
    streams: &mut Streams<R, W, E>,
) -> u8
    ensures part { TakesPart streams.old.input.remaining streams.new.input.remaining INPUT_BYTES }
    ensures silent { streams.new.errors ≡ streams.old.errors }
    ensures ends { EndsWorld A streams.old result streams.new }
{
    let bytes = match streams.input.read_up_to(alloc, INPUT_BYTES) {
        Ok(bytes) => bytes,
        Err(fault) => return refuse(&mut streams.output, fault.name()),
    };
    let script = match read_script(alloc, &bytes) {
        Ok(script) => script,
        Err(fault) => return refuse(&mut streams.output, fault.name()),
    };
    match play(alloc, &script, &mut streams.output) {
        Ok(refused) => u8::from(refused | streams.output.has_failed()),
        Err(fault) => refuse(&mut streams.output, fault.name()),
    }
}
