//! Why there is no world.

ghost use Rattle.std.specs.Prelude.{◌≡◌};
ghost use Rattle.dm_event_world.specs.Shows.{world_fault_name};

use thiserror::Error;

/// Why no world begins: the first of these, in this order, that applies.
#[derive(Clone, Copy, Debug, PartialEq, Eq, Error)]
pub enum WorldFault {
    /// A range has no number, or one above 64,515.
    #[error("a range is invalid")]
    Range,
    /// Two ranges share a number.
    #[error("two ranges share a number")]
    Overlap,
    /// A capacity is not 1 to 1,024.
    #[error("there is room for 1 to 1,024 documents")]
    Capacity,
    /// Memory for the printers and desks, or for the answers of a run, was refused.
    #[error("out of memory")]
    Memory,
}

impl WorldFault {
    /// The variant's name.
    pub fn name(self) -> &'static str
        ensures { result.now ≡ world_fault_name self }
    {
        match self {
            WorldFault::Range => "Range",
            WorldFault::Overlap => "Overlap",
            WorldFault::Capacity => "Capacity",
            WorldFault::Memory => "Memory",
        }
    }
}
