//! What is refused.

ghost use Rattle.std.specs.Prelude.{◌≡◌};
ghost use Rattle.dm_finder_frame.specs.declared.fault.FrameFault.TheVariants.{Border};

use std::alloc::AllocError;
use thiserror::Error;

/// Why modules make no grid.
#[derive(Clone, Copy, Debug, PartialEq, Eq, Error)]
pub enum GridFault {
    /// The side is not that of a symbol, or the modules are not as many as a square of that side has.
    #[error("the modules do not fill a symbol of that side")]
    Side,
    /// The allocator refused its memory.
    #[error("out of memory")]
    Memory,
}

/// More than an eighth of the finder patterns' modules are wrong; this is their number.
#[derive(Clone, Copy, Debug, PartialEq, Eq, Error)]
#[error("{wrong} modules of the finder patterns are wrong")]
pub struct WrongFrame {
    pub wrong: u16,
}

/// Why the finder patterns cannot be taken off a grid.
#[derive(Clone, Copy, Debug, PartialEq, Eq, Error)]
pub enum FrameFault {
    /// More than an eighth of the finder patterns' modules are wrong; this is their number.
    #[error("{wrong} modules of the finder patterns are wrong")]
    Border { wrong: u16 },
    /// The allocator refused its memory.
    #[error("out of memory")]
    Memory,
}

impl From<AllocError> for GridFault {
    ghost use Rattle.dm_finder_frame.specs.declared.fault.GridFault.TheVariants.{Memory};

    ghost from_gives = { λ _ fault. fault ≡ Memory };

    fn from(_: AllocError) -> GridFault {
        GridFault::Memory
    }
}

impl From<WrongFrame> for FrameFault {
    ghost from_gives = { λ given fault. fault ≡ Border given.wrong };

    fn from(fault: WrongFrame) -> FrameFault {
        FrameFault::Border { wrong: fault.wrong }
    }
}

impl From<AllocError> for FrameFault {
    ghost use Rattle.dm_finder_frame.specs.declared.fault.FrameFault.TheVariants.{Memory};

    ghost from_gives = { λ _ fault. fault ≡ Memory };

    fn from(_: AllocError) -> FrameFault {
        FrameFault::Memory
    }
}
