//! Laws of the texts of tickets, of audits, and of limits. The functions do nothing: their contracts are the laws.

ghost use Rattle.std.specs.Prelude.{◌≡◌, ◌≢◌, ◌≤◌, ◌↔◌, IsTrue, List, [], ℕ};
ghost use Rattle.std.specs.List.{AllByRecursion};
ghost use Rattle.dm_gf256.specs.Field.{differ};
ghost use Rattle.dm_print_ledger.specs.Ledger.{are_ranges};
ghost use Rattle.relay_printer_commands.specs.Printers.{AreAllSound, EvidenceView, audit_lines, check_text, HasTicket, IsCheckText, IsChecked, IsGroupedText};

use crate::audit::TICKETS_BYTES;
use dm_print_ledger::laws::numbers_and_givers;

/// The limit by number: no definition moves with a constant.
pub fn limits_by_number()
    ensures { TICKETS_BYTES ≡ 1048577 }
{}

/// If one or two of the twelve bytes that a text in the check form spells are changed, the new text is no ticket's.
pub fn changed_bytes_are_refused()
    ensures { (text bytes other changed : List ℕ) (check : IsCheckText text bytes) → IsGroupedText other changed
        → differ check.whole changed ≤ 2 → check.whole ≢ changed → ¬ HasTicket other }
{}

/// The check form that `ticket` prints is read as that ticket.
pub fn check_text_is_read()
    ensures { (bytes whole : List ℕ) → IsChecked bytes whole → IsCheckText (check_text whole) bytes }
{}

/// An audit is silent exactly where what it was given breaks nothing.
pub fn audit_is_exact()
    ensures { (evidence : List EvidenceView) → AllByRecursion (λ one. IsTrue (are_ranges one.shown.free)) evidence
        → (audit_lines evidence ≡ []) ↔ AreAllSound evidence }
{
    numbers_and_givers();
}
