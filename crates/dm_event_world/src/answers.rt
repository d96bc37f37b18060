//! Answers to events that are looked at first.

use dm_event_history::Reply;
use std::alloc::{Allocator, Global};

/// What became of an event that was looked at before it was given to a world.
#[derive(Drop)]
pub enum Answer<A: Allocator = Global> {
    /// The event was given to the world, which replied. It is honest unless it is a scan with too many wrong codewords
    /// in a block.
    Given { is_honest: bool, reply: Reply<A> },
    /// Memory for the look was refused, and the event was not given to the world.
    NotGiven,
}
