//! How many labels a document has, before any is made.

ghost use Rattle.std.specs.Prelude.{◌≡◌, ℕ, Some, IfSome};
ghost use Rattle.dm_print_ledger.specs.Verdicts.{HasLabels};

use dm_append_label::cut;
use dm_append_label::laws::parts_of_a_document;
use dm_encodation::Scheme;
use dm_size::Size;

/// How many labels of this size and encodation a document has, 2 to 16: as many as a printer prints of it, and none
/// where a printer answers `TooLong`. No label is made, and no memory is taken.
pub fn label_count(document: &[u8], size: Size, scheme: Scheme) -> Option<u8>
    ensures some { IfSome result (HasLabels size scheme document.now) }
    ensures exact { (count : ℕ) → HasLabels size scheme document.now count → result ≡ Some count }
{
    parts_of_a_document();
    let Ok(ends) = cut(document, size, scheme) else {
        return None;
    };
    Some(ends.len() as u8)
}
