//! Readers and writers that remember whether they have failed.
//!
//! A contract over a bare reader can name the bytes that are left, and cannot say that a read failed. [`Input`] and
//! [`Output`] keep both in private fields, so a function above this crate can promise "the fault `Read` comes only
//! where a read has failed", and a body that invents the fault is refused: nothing outside this crate sets the flag.
//!
//! Proved: a success takes or appends exactly the bytes that it names and leaves the flag as it was; after a fault the
//! flag is set; a fault of [`Input::next_byte`] takes nothing, and one of [`Input::fill`] fewer bytes than there was
//! room for; of a text that was refused a part was appended, from its first byte on; once a write has failed each later
//! one is refused and appends nothing. Only tested: that the flag is set by a failed read or write alone, since no
//! contract of the standard library says when a reader or a writer fails.
#![tactic(auto)]

mod fault;
mod input;
mod output;

pub use fault::{InputFault, ReadFault, WriteFault};
pub use input::{Input, fill_from, next_byte_of};
pub use output::{Output, put_to};
