//! Laws of scripts: each function's contract is the law.

ghost use Rattle.std.specs.Prelude.{◌≡◌};

use crate::script::{MOST_DESKS, MOST_EVENTS, MOST_PRINTERS, SCRIPT_BYTES};

/// The limits by number: no definition moves with a constant.
pub fn limits_by_number()
    ensures bytes { SCRIPT_BYTES ≡ 1048576 }
    ensures printers { MOST_PRINTERS ≡ 64 }
    ensures desks { MOST_DESKS ≡ 64 }
    ensures events { MOST_EVENTS ≡ 10000 }
{}
