//! A document cut into the parts of its labels.

ghost use Rattle.std.specs.Prelude.{◌≡◌, ◌≤◌, length, IfOk, OnErr};
ghost use Rattle.dm_append_label.specs.Labels.{AreEnds, HasNoEnds, IsCut, until_two};

use crate::head::HEAD_WORDS;
use crate::laws::parts_of_a_document;
use arrayvec::ArrayVec;
use dm_encodation::{Scheme, fit};
use dm_size::Size;
use thiserror::Error;

/// The most labels of one document (ISO/IEC 16022:2006, 5.6).
pub const MOST_LABELS: usize = 16;

/// The size has no room for the head of a label, some rest of the document has no prefix that fits but the empty one,
/// or the document needs more than sixteen labels.
#[derive(Clone, Copy, Debug, PartialEq, Eq, Error)]
#[error("the document does not fit sixteen labels of this size")]
pub struct TooLong;

// Adds empty parts until there are two.
fn pad(ends: &mut ArrayVec<usize, MOST_LABELS>, end: usize)
    requires { length ends.old.items ≤ 16 }
    ensures { ends.new.items ≡ until_two end ends.old.items }
{
    if ends.is_empty() {
        ends.push(end);
    }
    if ends.len() == 1 {
        ends.push(end);
    }
}

// The ends of the parts, by cutting from the left.
fn greedy_ends(
    document: &[u8],
    size: Size,
    scheme: Scheme,
) -> Result<ArrayVec<usize, MOST_LABELS>, TooLong>
    ensures ends { IfOk result (λ ends. AreEnds size scheme document.now ends.items) }
    ensures none { OnErr result (HasNoEnds size scheme document.now) }
{
    let words = size.data_words();
    if words < HEAD_WORDS {
        return Err(TooLong);
    }
    let mut ends = ArrayVec::new();
    let mut from = 0;
    while from < document.len() {
        let taken = fit(scheme, &document[from..], words - HEAD_WORDS);
        if taken == 0 {
            return Err(TooLong);
        }
        if ends.is_full() {
            return Err(TooLong);
        }
        from += taken;
        ends.push(from);
    }
    pad(&mut ends, from);
    Ok(ends)
}

/// The ends of the parts of a document, 2 to 16 of them: each part is the greatest prefix of what remains that a label
/// of this size has room for, and empty parts follow until there are two. The last end is the document's length, and
/// each part can be sealed. A document of no bytes has the ends 0 and 0. It takes no memory.
///
/// A label of side 12 has one codeword left after its head, and two digits are one codeword: in ASCII `1234567` has the
/// ends 2, 4, 6 and 7.
///
/// # Errors
/// `TooLong` where the document has no such parts, at side 10 whatever it is.
pub fn cut(
    document: &[u8],
    size: Size,
    scheme: Scheme,
) -> Result<ArrayVec<usize, MOST_LABELS>, TooLong>
    ensures ends { IfOk result (λ ends. AreEnds size scheme document.now ends.items) }
    ensures cut { IfOk result (λ ends. IsCut size scheme document.now ends.items) }
    ensures none { OnErr result (HasNoEnds size scheme document.now) }
{
    parts_of_a_document();
    greedy_ends(document, size, scheme)
}
