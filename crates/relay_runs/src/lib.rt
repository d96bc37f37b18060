//! Commands of a printer do what runs of the machine do.
//!
//! The commands `print`, `give` and `take`, over the store of a printer's ledger, do to this store, and let out, what a
//! run of the machine of `dm_event_history` does. So what is proved of each run holds of what commands do one after
//! another. The crate has no code: the contracts of [`laws`] are what it says.
#![tactic(auto)]

pub mod laws;
