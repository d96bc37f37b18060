//! Labels: symbols with Structured Append, each of which carries one page of a document (ISO/IEC 16022:2006, 5.6).
//!
//! [`cut`] divides a document into the parts of its labels, [`seal`] draws the label of a [`Page`], and [`open_label`]
//! reads one from any grid. [`open_page`] does so in room of the caller's: it corrects the codewords of the grid's
//! symbol, and [`find_page`] reads the page that these have. [`still_near`] says whether flipped modules leave a grid
//! within what is corrected.
//!
//! Proved: the grid of `seal` carries the page; what `open_page` and `open_label` give is the page of the one symbol
//! near the grid, and each refusal is the first that applies; a grid near a label opens as that label's page where its
//! finder patterns are within their limit, and whatever they are as no other page; the parts of `cut` are the greatest
//! that fit, there is one list of them, each can be sealed, and joined they are the document.
#![tactic(auto)]

mod cutting;
mod fault;
mod file_id;
mod head;
pub mod laws;
mod opening;
mod page;
mod sealing;

pub use cutting::{MOST_LABELS, TooLong, cut};
pub use dm_symbol::still_near;
pub use fault::{LabelFault, SealFault};
pub use file_id::FileId;
pub use opening::{FoundPage, MOST_PAGE_BYTES, Opened, find_page, open_label, open_page};
pub use page::Page;
pub use sealing::seal;
