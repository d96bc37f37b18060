//! The relay as one machine, and the events that it takes on.
//!
//! An [`Event`] is one call on one printer or one desk, of ten kinds: print, give, take or restart a printer; scan,
//! ask, forget, export, import or restart a desk. A [`Reply`] is its answer. A [`Stop`] says what is to happen to the
//! call: it ends early, or its save meets a fault.
//!
//! The machine is a relay without files: its printers as ledgers, its desks as documents, and what left them
//! (`specs/Relay`). `specs/Steps` has the table of how a call ends under each stop, and says what each call comes to
//! and what one event does. The machine has no code: its laws are the contracts of [`laws`].
#![tactic(auto)]

mod bytes;
mod event;
mod flips;
pub mod laws;
mod reply;
mod stop;

pub use bytes::Bytes;
pub use dm_store::Kept;
pub use event::Event;
pub use flips::Flips;
pub use reply::Reply;
pub use stop::Stop;
