//! Events of a world, one after another.

ghost use Rattle.std.specs.Prelude.{◌≡◌, List, IfOk, IfErr, OnOk, OnErr};
ghost use Rattle.dm_event_world.specs.Shows.{GoesOnByAll, HearsAll, IsWatched, HasWorldFault};
ghost use Rattle.dm_event_world.specs.declared.answers.Answer.{Answer};
ghost use Rattle.dm_event_world.specs.inner.Events.{Answers, AnswersAll};

use crate::answers::Answer;
use crate::fault::WorldFault;
use crate::steps::is_honest;
use crate::world::World;
use dm_event_history::{Event, Reply};
use dm_print_ledger::Range;
use std::alloc::{AllocError, Allocator};

/// Several events, one after another, with the reply to each.
///
/// # Errors
/// Where memory for the replies is refused: no event has come then.
pub fn run<A: Allocator + Copy>(
    alloc: A,
    world: &mut World<A>,
    events: &[Event<A>],
) -> Result<Vec<Reply<A>, A>, AllocError>
    ensures stands { IfOk result (λ replies. GoesOnByAll world.old events.now replies.items world.new) }
    ensures refused { OnErr result (world.new ≡ world.old) }
{
    let mut replies = Vec::with_capacity(alloc, events.len())?;
    for event in events {
        replies.push_reserved(world.step(event));
    }
    Ok(replies)
}

// One event that is looked at first: it is given to the world unless memory for the look is refused.
fn answer_one<A: Allocator + Copy>(world: &mut World<A>, event: &Event<A>) -> Answer<A>
    ensures { Answers world.old event.now result world.new }
{
    let Ok(is_honest) = is_honest(world, event) else {
        return Answer::NotGiven;
    };
    let reply = world.step(event);
    Answer::Given { is_honest, reply }
}

/// What hears the answers of a world, each as it comes.
pub trait Listener<A: Allocator + Copy> {
    /// What hearing an answer makes of it.
    ghost hears: { Self → Answer A → Self → Type 0 };

    /// Hears the next answer.
    fn hear(&mut self, answer: &Answer<A>)
        ensures { hears self.old answer.now self.new };
}

// Several events, each looked at first; the answer to each is heard before the next event comes.
fn answer_all<A: Allocator + Copy, L: Listener<A>>(
    world: &mut World<A>,
    events: &[Event<A>],
    listener: &mut L,
)
    ensures { (answers : List (Answer A)) × AnswersAll world.old events.now answers world.new
        × HearsAll L.hears listener.old answers listener.new }
{
    for event in events {
        listener.hear(&answer_one(world, event));
    }
}

/// A world of new printers, one for each range, and of empty desks, one for each capacity, to which several events
/// come, one after another. Each is looked at before it is given to the world, and the listener hears each answer.
///
/// # Errors
/// As for [`World::new`].
pub fn watch<A: Allocator + Copy, L: Listener<A>>(
    alloc: A,
    ranges: &[Range],
    capacities: &[u16],
    events: &[Event<A>],
    listener: &mut L,
) -> Result<(), WorldFault>
    // Whatever document a clean desk gave for an ID is the one document that was printed under it, and no
    // ID was printed twice.
    ensures headline { OnOk result ((answers : List (Answer A))
        × IsWatched ranges.now capacities.now events.now answers × HearsAll L.hears listener.old answers listener.new) }
    ensures refused { IfErr result (HasWorldFault ranges.now capacities.now) }
    ensures silent { OnErr result (listener.new ≡ listener.old) }
{
    let mut world = match World::new(alloc, ranges, capacities) {
        Ok(world) => world,
        Err(fault) => return Err(fault),
    };
    answer_all(&mut world, events, listener);
    Ok(())
}
