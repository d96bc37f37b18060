//! Scanned labels.

ghost use Rattle.std.specs.Prelude.{◌↔◌, ◌<◌, All, IsTrue};

/// Whether the modules, by row and column, are in a grid of this side.
pub(crate) fn are_within(side: u16, flips: &[(u16, u16)]) -> bool
    ensures { IsTrue result ↔ All (λ flip. (flip.0 < side) × (flip.1 < side)) flips.now }
{
    flips.iter().all(|flip| flip.0 < side && flip.1 < side)
}
