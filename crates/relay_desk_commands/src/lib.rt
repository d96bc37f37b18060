//! The commands of desks: `scan` gathers labels, `deliver` gives a document back, `forget` lets it go, `export` and
//! `import` move pages from one desk to another, `held` says which pages are held, and `copy` gives the label of one
//! again.
//!
//! Proved: each but `held` moves the documents of an old joint file, opens the desk whose files the set holds, does the
//! desk's call, writes its answer, and leaves the files as the call left them. `scan` does so for each image, `import`
//! for each file, in order. `held` opens no desk and leaves the files as they were: it writes a line for each document,
//! by what its file holds, and for each that is not sound. What `copy` gives opens as the page that is held. No stop of
//! the machine takes back what a command that saves nothing has told of a desk's folder (`settled`).
#![tactic(auto)]

mod all_documents;
mod copy;
mod desk_opening;
mod documents;
mod held;
mod held_long;
mod import;
pub mod laws;
mod lines;
mod scan;

pub use all_documents::{EndedAll, GivenAll, GivenDocument, give_all, opening_command};
pub use copy::{CopyOptions, copy_command};
pub use documents::{Given, deliver_command, export_command, forget_command};
pub use held::held_command;
pub use held_long::held_long_command;
pub use import::{IMPORT_BYTES, import_command};
pub use scan::scan_command;
