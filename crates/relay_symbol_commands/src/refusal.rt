//! Refusals, as the commands name them: each by the name of its innermost fault.

ghost use Rattle.std.specs.Prelude.{◌≡◌};
ghost use Rattle.relay_symbol_commands.specs.Symbols.{read_refusal_name, symbol_refusal_name, is_image_refusal};
ghost use Rattle.relay_symbol_commands.specs.declared.refusal.ReadRefusal.TheVariants as read_refusals;
ghost use Rattle.relay_symbol_commands.specs.declared.refusal.SymbolRefusal.TheVariants as symbol_refusals;

use dm_append_label::LabelFault::{self, Block, Border};
use dm_encodation::{DecodeFault, EncodeFault};
use dm_pbm_io::ShapeFault;
use relay_shared::Refusal;
use relay_streams::InputFault;
use std::alloc::AllocError;

/// Why no symbol was made of a document.
#[derive(Clone, Copy)]
pub enum SymbolRefusal {
    /// The side isn't one of the 23 symbol sizes.
    Side,
    Read,
    /// The document needs more codewords than the symbol has.
    TooLong,
    Memory,
}

impl SymbolRefusal {
    /// The name of what has refused.
    pub fn name(self) -> &'static str
        ensures { result.now ≡ symbol_refusal_name self }
    {
        match self {
            SymbolRefusal::Side => Refusal::Side.name(),
            SymbolRefusal::Read => InputFault::Read.name(),
            SymbolRefusal::TooLong => EncodeFault::TooLong.name(),
            SymbolRefusal::Memory => Refusal::Memory.name(),
        }
    }
}

/// Why `read` has refused an image.
#[derive(Clone, Copy)]
pub enum ReadRefusal {
    /// The image is no symbol inside a quiet zone one pixel wide.
    Shape,
    /// The symbol can't be read, or its head is invalid, or the text after the head can't be read.
    Label(LabelFault),
    /// The text of a symbol that is no label can't be read.
    Text(DecodeFault),
    /// Memory was refused for the line.
    Memory,
}

impl ReadRefusal {
    /// The name of the innermost fault.
    pub fn name(self) -> &'static str
        ensures { result.now ≡ read_refusal_name self }
    {
        match self {
            ReadRefusal::Shape => ShapeFault::Shape.name(),
            ReadRefusal::Label(fault) => fault.name(),
            ReadRefusal::Text(fault) => fault.name(),
            ReadRefusal::Memory => Refusal::Memory.name(),
        }
    }

    // Whether it is of the image itself, and not of what its symbol says.
    pub(crate) fn is_of_image(self) -> bool
        ensures { result ≡ is_image_refusal self }
    {
        match self {
            ReadRefusal::Shape => true,
            ReadRefusal::Label(fault) => matches!(fault, Border { .. } | Block { .. }),
            ReadRefusal::Text(_) | ReadRefusal::Memory => false,
        }
    }
}

impl From<AllocError> for ReadRefusal {
    ghost from_gives = { λ _ refusal. refusal ≡ read_refusals.Memory };

    fn from(_: AllocError) -> Self {
        ReadRefusal::Memory
    }
}
