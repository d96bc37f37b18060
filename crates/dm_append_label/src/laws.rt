//! Laws of labels: each function's contract is the law.

ghost use Rattle.std.specs.Prelude.{◌≡◌};
ghost use Rattle.std.specs.Ordering.{nat_cmp};
ghost use Rattle.dm_append_label.specs.Labels.{EachCutIs, HasOneCut};

use crate::file_id::FileId;
use crate::opening::MOST_PAGE_BYTES;
use std::cmp::Ordering;

/// IDs are ordered by number.
pub fn ids_are_ordered_by_number(one: FileId, other: FileId) -> Ordering
    ensures { result ≡ nat_cmp one other }
{
    one.cmp(&other)
}

/// The most bytes of a page, by number: no definition moves with the constant.
pub fn page_bytes_by_number()
    ensures { MOST_PAGE_BYTES ≡ 2600 }
{}

/// A document has one list of parts at most; these are 2 to 16, each fits a label, and joined they are the document.
pub fn parts_of_a_document()
    ensures one { HasOneCut }
    ensures cut { EachCutIs }
{}
