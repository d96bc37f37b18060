//! Why a text isn't written, and why codewords aren't read.

ghost use Rattle.std.specs.Prelude.{◌≡◌};
ghost use Rattle.dm_encodation.specs.Faults.{encode_fault_name, decode_fault_name};

use std::alloc::AllocError;
use thiserror::Error;

/// Why a text isn't written.
#[derive(Clone, Copy, Debug, PartialEq, Eq, Error)]
pub enum EncodeFault {
    /// The text needs more codewords than the head leaves of the symbol's data codewords.
    #[error("the text needs more codewords than the symbol has left")]
    TooLong,
    /// The allocator refused memory for the codewords.
    #[error("out of memory")]
    Memory,
}

impl EncodeFault {
    /// The variant's name.
    pub fn name(self) -> &'static str
        ensures { result.now ≡ encode_fault_name self }
    {
        match self {
            EncodeFault::TooLong => "TooLong",
            EncodeFault::Memory => "Memory",
        }
    }
}

/// Why codewords aren't read. The positions `at` count from 1 at the first of all codewords; `word` is the
/// codeword that stands there.
#[derive(Clone, Copy, Debug, PartialEq, Eq, Error)]
pub enum DecodeFault {
    /// A codeword or a value that has a meaning in the standard which is not read here: FNC1,
    /// Structured Append, Reader Programming, Macro, ANSI X12, EDIFACT or ECI.
    #[error("codeword {word} at position {at} is a feature of the standard that is not read")]
    Unsupported { at: usize, word: u8 },
    /// A codeword or a pair that has no meaning where it stands.
    #[error("codeword {word} at position {at} has no meaning there")]
    Reserved { at: usize, word: u8 },
    /// The codewords end in the middle of a character, a pair or a counted run of bytes that began at
    /// `at`.
    #[error("what begins at position {at} is cut off")]
    Cut { at: usize },
    /// The allocator refused memory for the bytes; the codewords themselves have no fault.
    #[error("out of memory")]
    Memory,
}

impl DecodeFault {
    /// The variant's name.
    pub fn name(self) -> &'static str
        ensures { result.now ≡ decode_fault_name self }
    {
        match self {
            DecodeFault::Unsupported { .. } => "Unsupported",
            DecodeFault::Reserved { .. } => "Reserved",
            DecodeFault::Cut { .. } => "Cut",
            DecodeFault::Memory => "Memory",
        }
    }
}

impl From<AllocError> for EncodeFault {
    ghost use Rattle.dm_encodation.specs.declared.fault.EncodeFault.TheVariants.{Memory};

    ghost from_gives = { λ _ e. e ≡ Memory };

    fn from(_: AllocError) -> Self {
        EncodeFault::Memory
    }
}

impl From<AllocError> for DecodeFault {
    ghost use Rattle.dm_encodation.specs.declared.fault.DecodeFault.TheVariants.{Memory};

    ghost from_gives = { λ _ e. e ≡ Memory };

    fn from(_: AllocError) -> Self {
        DecodeFault::Memory
    }
}
