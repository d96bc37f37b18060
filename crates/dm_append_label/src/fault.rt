//! Why a label isn't made or opened.

ghost use Rattle.std.specs.Prelude.{◌≡◌};
ghost use Rattle.dm_append_label.specs.Opening.{symbol_fault, label_fault_name};
ghost use Rattle.dm_append_label.specs.declared.fault.SealFault.TheVariants as seal_faults;

use dm_encodation::DecodeFault;
use dm_symbol::SymbolFault;
use std::alloc::AllocError;
use thiserror::Error;

/// Why a page isn't sealed.
#[derive(Clone, Copy, Debug, PartialEq, Eq, Error)]
pub enum SealFault {
    /// The symbol has no room for the head of a label, or the page's bytes need more codewords than the head leaves.
    #[error("the page does not fit a label of this size")]
    TooLong,
    /// The allocator refused its memory.
    #[error("out of memory")]
    Memory,
}

/// Why a grid isn't opened as a label: the first of these, in this order, that applies.
#[derive(Clone, Copy, Debug, PartialEq, Eq, Error)]
pub enum LabelFault {
    /// More than an eighth of the finder patterns' modules are wrong; this is their number.
    #[error("{wrong} modules of the finder patterns are wrong")]
    Border { wrong: u16 },
    /// This block, from 0, has more wrong codewords than can be corrected.
    #[error("block {block} has more wrong codewords than can be corrected")]
    Block { block: usize },
    /// There is no head of a label: the first codeword is not that of Structured Append.
    #[error("the symbol is not a label")]
    NotAppended,
    /// The sequence indicator is that of no label 1 to n of 2 to 16.
    #[error("the sequence indicator {word} is invalid")]
    Sequence { word: u8 },
    /// One of the ID's codewords is 0 or 255.
    #[error("the ID is invalid")]
    FileId,
    /// The text after the head has this fault, which is never `Memory`.
    #[error("{0}")]
    Content(DecodeFault),
    /// Memory was refused, for the bytes of a page that was found.
    #[error("out of memory")]
    Memory,
}

impl LabelFault {
    /// The variant's name, and for `Content` that of the fault of the text.
    pub fn name(self) -> &'static str
        ensures { result.now ≡ label_fault_name self }
    {
        match self {
            LabelFault::Border { .. } => "Border",
            LabelFault::Block { .. } => "Block",
            LabelFault::NotAppended => "NotAppended",
            LabelFault::Sequence { .. } => "Sequence",
            LabelFault::FileId => "FileId",
            LabelFault::Content(fault) => fault.name(),
            LabelFault::Memory => "Memory",
        }
    }
}

impl From<AllocError> for SealFault {
    ghost from_gives = { λ _ fault. fault ≡ seal_faults.Memory };

    fn from(_: AllocError) -> Self {
        SealFault::Memory
    }
}

impl From<SymbolFault> for LabelFault {
    ghost from_gives = { λ given fault. fault ≡ symbol_fault given };

    fn from(fault: SymbolFault) -> Self {
        match fault {
            SymbolFault::Border { wrong } => LabelFault::Border { wrong },
            SymbolFault::Block { block } => LabelFault::Block { block },
        }
    }
}
