//! Desks, which gather the pages of documents from scanned labels, and save each document in a file of its own.
//!
//! [`Desk::open`] makes a desk over a set of stores. It holds the documents whose files the set has, and
//! [`Desk::settle`] settles what it found. [`Desk::accept`] opens a scanned label and saves its page, [`Desk::pages`]
//! lends what is held of a document, [`Desk::held`] lists all documents, [`Desk::document`] joins the pages of one if
//! all of them are held, and [`Desk::forget`] drops it. [`Desk::export`] gives the held pages of a document as a file,
//! and [`Desk::import`] adds those of such a file. [`move_pages`] moves the documents of a joint file, in which version
//! 1 kept them all, to a set. [`held_at`] and [`JointFile`] say without
//! a desk what one file holds.
//!
//! Proved: each answer follows from what is held, and each refusal is the first that applies. A page is saved before it
//! is answered, and a held page keeps its bytes until its document is forgotten, or a `forget` answers `Save`. A
//! document is given only if each of its pages is held, and then it is these, joined in order. A call on one document
//! leaves all others. Every refusal but a failed save leaves the desk and its set as they were; after a failed save the
//! set holds the old or the new file, and the desk answers `Failed` until it is opened again. A desk that is opened on
//! what an honest set kept holds exactly that. A file that is looked at without a desk is described as it is,
//! or the reason is named why it is no file of pages.
#![tactic(auto)]

mod accepting;
mod adding;
mod desk;
mod document;
mod documents;
mod exporting;
mod fault;
mod file;
mod forgetting;
mod importing;
mod joint_file;
pub mod laws;
mod limits;
mod looking;
mod merging;
mod moving;
mod opening;
mod pages;
mod reading;
mod reply;
mod writing;

pub use adding::AddFault;
pub use desk::Desk;
pub use fault::{AskFault, DeskFault, ExportFault, ForgetFault, ImportFault, MoveFault, ScanFault};
pub use joint_file::JointFile;
pub use limits::{MOST_CAPACITY, MOST_FILE_BYTES, MOST_JOINT_FILE_BYTES};
pub use looking::{held_at, is_listed};
pub use moving::move_pages;
pub use opening::DeskRefused;
pub use pages::Pages;
pub use reply::{Accepted, Held, Imported, Kind};
