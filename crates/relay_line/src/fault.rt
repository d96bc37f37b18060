//! Why a command line isn't taken.

ghost use Rattle.std.specs.Prelude.{◌≡◌};
ghost use Rattle.relay_line.specs.declared.fault.LineFault.TheVariants.{Memory};

use std::alloc::AllocError;
use thiserror::Error;

/// Why a command line isn't taken.
#[derive(Debug, Drop, Error)]
pub enum LineFault {
    /// The parser's text, and the exit status: 2 for a wrong line, whose text belongs on standard error,
    /// 0 for help that was asked for, whose text belongs on standard output.
    #[error("{text}")]
    Line { text: String, status: u8 },
    /// Memory was refused.
    #[error("out of memory")]
    Memory,
}

impl From<AllocError> for LineFault {
    ghost from_gives = { λ _ fault. fault ≡ Memory };

    fn from(_: AllocError) -> Self {
        LineFault::Memory
    }
}
