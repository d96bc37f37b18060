//! Laws of what stands here: the function's contract is the law.

ghost use Rattle.std.specs.Prelude.{◌≡◌};

use crate::command::DOCUMENT_BYTES;
use crate::images::MOST_IMAGES;

/// The limits by number: no definition moves with a constant.
pub fn limits_by_number()
    ensures document { DOCUMENT_BYTES ≡ 41601 }
    ensures images { MOST_IMAGES ≡ 65536 }
{}
