//! Commands of a desk that holds pages of printed labels alone: each function's contract is a law. They keep the desk
//! so, and what `deliver` gives out of it is a document that was printed. The crate has no code.
#![tactic(auto)]

pub mod laws;
