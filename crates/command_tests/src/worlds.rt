//! A world by calls: a run of events, and what has left it; and why no world begins.

use crate::refused_worlds::{GATHERED, GATHERING, script_of, told, world_of};
use dm_append_label::FileId;
use dm_event_history::{Event, Reply};
use dm_event_world::{World, WorldFault, is_honest, run};

// Whether the replies to the gathering are these.
fn are_of_gathering(replies: &[Reply]) -> bool {
    let mut rest = replies;
    for words in GATHERED.split(',') {
        let [reply, after @ ..] = rest else {
            return false;
        };
        if told(reply) != words {
            return false;
        }
        rest = after;
    }
    rest.is_empty()
}

// Whether a world finds each of these events honest.
fn are_honest(world: &World, events: &[Event]) -> bool {
    for event in events {
        if is_honest(world, event) != Ok(true) {
            return false;
        }
    }
    true
}

// Whether two labels have left the world, a ticket and a file.
fn has_left(world: &World, id: FileId) -> bool {
    let labels = (world.label(0), world.label(1), world.label(2));
    let Some(ticket) = world.ticket(0) else {
        return false;
    };
    (world.labels(), world.tickets(), world.exports()) == (2, 1, 1)
        && labels == (Some((id, 1, 2)), Some((id, 2, 2)), None)
        && ticket.bytes() == [0, 0, 0, 0, 0, 1, 0, 5, 0, 9]
        && world.ticket(1).is_none()
}

#[test]
fn a_run_answers_each_event_and_leaves_what_left(rt: HostRuntime) {
    let script = script_of(rt.alloc(), GATHERING).expect(&rt, "a script");
    let mut world = world_of(rt.alloc(), &script).expect(&rt, "a world");
    let replies = run(rt.alloc(), &mut world, &script.events).expect(&rt, "it is done");
    assert!(rt; are_of_gathering(&replies) && are_honest(&world, &script.events));
    let id = FileId::of_words(1, 1).expect(&rt, "an ID");
    assert!(rt; has_left(&world, id));
}

const TEXTS: &str = "\
a range is invalid, two ranges share a number, there is room for 1 to 1,024 documents, out of memory";

#[rattlefmt::skip]
#[test]
fn world_faults_say_what_is_wrong(rt: HostRuntime) {
    let texts = format!(in rt.alloc(); "{}, {}, {}, {}",
        WorldFault::Range, WorldFault::Overlap, WorldFault::Capacity, WorldFault::Memory);
    assert!(rt; texts.expect(&rt, "it is done").as_str() == TEXTS);
}
