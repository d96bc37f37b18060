//! The texts of faults.

use dm_append_label::{LabelFault, SealFault, cut};
use dm_corrector::{BlockFault, Uncorrectable};
use dm_encodation::{DecodeFault, EncodeFault, Scheme};
use dm_finder_frame::{FrameFault, GridFault};
use dm_size::Size;
use dm_symbol::SymbolFault;

const OF_SYMBOLS: &str = "\
no sound block is near enough to the block, block 3 has too many wrong codewords
the text needs more codewords than the symbol has left, out of memory
codeword 232 at position 2 is a feature of the standard that is not read
codeword 254 at position 7 has no meaning there
what begins at position 1 is cut off, out of memory
27 modules of the finder patterns are wrong, out of memory
the modules do not fill a symbol of that side, out of memory
27 modules of the finder patterns are wrong
block 7 has more wrong codewords than can be corrected";

#[rattlefmt::skip]
#[test]
fn faults_of_symbols_say_what_is_wrong(rt: HostRuntime) {
    let texts = format!(in rt.alloc();
        "{}, {}\n{}, {}\n{}\n{}\n{}, {}\n{}, {}\n{}, {}\n{}\n{}",
        Uncorrectable, BlockFault { block: 3 }, EncodeFault::TooLong, EncodeFault::Memory,
        DecodeFault::Unsupported { at: 2, word: 232 }, DecodeFault::Reserved { at: 7, word: 254 },
        DecodeFault::Cut { at: 1 }, DecodeFault::Memory, FrameFault::Border { wrong: 27 },
        FrameFault::Memory, GridFault::Side, GridFault::Memory, SymbolFault::Border { wrong: 27 },
        SymbolFault::Block { block: 7 },
    ).expect(&rt, "it is done");
    assert!(rt; texts.as_str() == OF_SYMBOLS);
}

const OF_LABELS: &str = "\
6 modules of the finder patterns are wrong
block 7 has more wrong codewords than can be corrected
the symbol is not a label, the sequence indicator 32 is invalid, the ID is invalid
what begins at position 3 is cut off, out of memory
the page does not fit a label of this size, out of memory
the document does not fit sixteen labels of this size";

#[rattlefmt::skip]
#[test]
fn faults_of_labels_say_what_is_wrong(rt: HostRuntime) {
    let too_long = cut(b"", Size::Side10, Scheme::Ascii).err().expect(&rt, "a label of side 10");
    let texts = format!(in rt.alloc();
        "{}\n{}\n{}, {}, {}\n{}, {}\n{}, {}\n{}",
        LabelFault::Border { wrong: 6 }, LabelFault::Block { block: 7 }, LabelFault::NotAppended,
        LabelFault::Sequence { word: 32 }, LabelFault::FileId,
        LabelFault::Content(DecodeFault::Cut { at: 3 }), LabelFault::Memory,
        SealFault::TooLong, SealFault::Memory, too_long,
    ).expect(&rt, "it is done");
    assert!(rt; texts.as_str() == OF_LABELS);
}
