//! What is refused.

ghost use Rattle.std.specs.Prelude.{◌≡◌};
ghost use Rattle.dm_pbm_io.specs.FaultNames.{pbm_fault_name, shape_fault_name};
ghost use Rattle.dm_pbm_io.specs.declared.fault.ShapeFault.TheVariants as shape_faults;

use std::alloc::AllocError;
use thiserror::Error;

/// Why no image was read.
#[derive(Clone, Copy, Debug, PartialEq, Eq, Error)]
pub enum PbmFault {
    /// The first two bytes are not `P1` or `P4`, or there is one byte alone.
    #[error("the input does not begin with P1 or P4")]
    Magic,
    /// A byte that the header can't have there, a width or height of 0, or a header of more than 4,096 bytes.
    #[error("the header is invalid")]
    Header,
    /// Wider or higher than 1,024, or a plain raster of more than 4,194,304 bytes.
    #[error("the image is too large")]
    TooLarge,
    /// The input ends inside the image.
    #[error("the input ends inside the image")]
    Cut,
    /// A byte that a plain raster can't have.
    #[error("the raster has a byte that is no pixel")]
    Pixel,
    /// The reader failed.
    #[error("the input could not be read")]
    Read,
    /// The allocator refused memory for the pixels.
    #[error("out of memory")]
    Memory,
}

impl PbmFault {
    /// The fault's own name.
    pub fn name(self) -> &'static str
        ensures { result.now ≡ pbm_fault_name self }
    {
        match self {
            PbmFault::Magic => "Magic",
            PbmFault::Header => "Header",
            PbmFault::TooLarge => "TooLarge",
            PbmFault::Cut => "Cut",
            PbmFault::Pixel => "Pixel",
            PbmFault::Read => "Read",
            PbmFault::Memory => "Memory",
        }
    }
}

/// Why an image is no grid.
#[derive(Clone, Copy, Debug, PartialEq, Eq, Error)]
pub enum ShapeFault {
    /// It isn't square, its side less the quiet zone is not that of a symbol, or it hasn't all its pixels.
    #[error("the image has not the shape of a symbol")]
    Shape,
    /// The allocator refused memory for the modules.
    #[error("out of memory")]
    Memory,
}

impl ShapeFault {
    /// The fault's own name.
    pub fn name(self) -> &'static str
        ensures { result.now ≡ shape_fault_name self }
    {
        match self {
            ShapeFault::Shape => "Shape",
            ShapeFault::Memory => "Memory",
        }
    }
}

impl From<AllocError> for ShapeFault {
    ghost from_gives = { λ _ fault. fault ≡ shape_faults.Memory };

    fn from(_: AllocError) -> Self {
        ShapeFault::Memory
    }
}
