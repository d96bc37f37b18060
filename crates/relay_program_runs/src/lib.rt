//! The commands of the program: no ID is printed twice, and what is delivered is the one document printed under its ID.
//! Read `specs/Law.antt` from top to bottom. The contracts of [`laws`] are what it says.
#![tactic(auto)]

pub mod laws;
pub mod needed;
pub mod worked;
pub mod worked_lines;
