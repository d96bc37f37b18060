//! Worlds: printers and desks that run, each printer over a store of its own, each desk over a set of its own, and the
//! labels, tickets and exports that left them. Stops and failed saves are part of the events.
//!
//! An event is the single call on the printer or the desk that it names, with the plan of its stop for the next save
//! ([`World::step`]). A call that is stopped after its save is made too; if its memory is refused it is not stopped,
//! and the reply is `Memory`. A scan gives the desk the label's grid with some modules flipped. An event is honest
//! ([`is_honest`]) unless it is a scan in which more codewords of a block are wrong than can be corrected.
//!
//! Proved: a world that begins stands for the empty history, and one that stands for a history stands, after an event,
//! for it with one moment more ([`World::new`], [`World::step`], [`run`]). So of each run that is watched from its
//! beginning the headline stands ([`watch`]): whatever document a clean desk gave for an ID is the one
//! document printed under it, all desks were clean as long as each scan that may have saved its page was fair, and no
//! ID was printed twice.
#![tactic(auto)]

mod actor;
mod answers;
mod call;
mod desk_act;
mod desk_opening;
mod fault;
mod printer_act;
mod printer_opening;
mod running;
mod scanned;
mod steps;
mod world;

pub use answers::Answer;
pub use dm_event_history::{Bytes, Event, Flips, Kept, Reply, Stop};
pub use fault::WorldFault;
pub use running::{Listener, run, watch};
pub use steps::is_honest;
pub use world::World;
