//! Labels, the parts of documents, heads, and labels that are damaged.

use crate::worked::flip_all;
use dm_append_label::{
    FileId, LabelFault, MOST_PAGE_BYTES, Page, SealFault, cut, open_label, open_page, seal,
};
use dm_encodation::{DecodeFault, Scheme};
use dm_finder_frame::Grid;
use dm_size::Size;
use dm_symbol::{correct_grid, draw_symbol, still_near};
use std::alloc::{AllocError, Global};

// A label of the ID 0: the page m of n, its bytes, an encodation and a size.
type Label = (u8, u8, &'static [u8], Scheme, Size);

// The first label of `1234` in side 12.
const ONE: Label = (1, 2, b"12", Scheme::Ascii, Size::Side12);

// The page m of n of the document of a number.
pub(crate) fn page_of_bytes(
    alloc: Global,
    number: u16,
    m: u8,
    n: u8,
    bytes: &[u8],
) -> Option<Page> {
    Page::new(FileId::of_number(number)?, m, n, bytes.to_vec(alloc).ok()?)
}

fn sealed(alloc: Global, (m, n, bytes, scheme, size): Label) -> Result<Grid, SealFault> {
    let page = page_of_bytes(alloc, 0, m, n, bytes).ok_or(SealFault::TooLong)?;
    seal(alloc, &page, size, scheme)
}

// Labels, and their first data codewords.
#[rattlefmt::skip]
const LABELS: [(Label, &[u8]); 8] = [
    ((1, 2, &[1], Scheme::Base256, Size::Side14), &[233, 15, 1, 1, 231, 131, 25, 129]),
    ((2, 2, b"", Scheme::Base256, Size::Side14), &[233, 31, 1, 1, 129, 11, 161, 56]),
    ((1, 2, b"", Scheme::Ascii, Size::Side14), &[233, 15, 1, 1, 129, 11, 161, 56]),
    (ONE, &[233, 15, 1, 1, 142]),
    ((2, 2, b"34", Scheme::Ascii, Size::Side12), &[233, 31, 1, 1, 164]),
    ((1, 2, b"AIM", Scheme::C40, Size::Side14), &[233, 15, 1, 1, 230, 91, 11, 129]),
    ((3, 7, b"", Scheme::Ascii, Size::Side12), &[233, 42, 1, 1]),
    ((16, 16, b"77", Scheme::Ascii, Size::Side12), &[233, 241, 1, 1]),
];

// Whether a grid opens as a label, with no wrong module.
fn opens(alloc: Global, grid: &Grid, (m, n, bytes, _, _): Label) -> bool {
    let Ok(opened) = open_label(alloc, grid) else {
        return false;
    };
    let page = opened.page;
    (opened.corrected, opened.wrong) == (0, 0)
        && (page.m(), page.n(), page.id().words()) == (m, n, (1, 1))
        && page.bytes() == bytes
}

// Whether the page is found in a grid, in room that is lent.
fn has_page(grid: &Grid, (m, n, bytes, _, _): Label) -> bool {
    let mut room = [0u8; MOST_PAGE_BYTES];
    match open_page(&grid.lend(), &mut room) {
        Ok(page) => {
            (page.m, page.n, page.id.words()) == (m, n, (1, 1))
                && room.get(..page.count) == Some(bytes)
        }
        Err(_) => false,
    }
}

// Whether a label has these data codewords first, and opens.
fn is_sealed(alloc: Global, label: Label, words: &[u8]) -> bool {
    let Ok(grid) = sealed(alloc, label) else {
        return false;
    };
    let begins = match correct_grid(&grid.lend()) {
        Ok(symbol) => symbol.data().starts_with(words),
        Err(_) => false,
    };
    begins && opens(alloc, &grid, label) && has_page(&grid, label)
}

#[test]
fn labels_are_sealed_and_opened(rt: HostRuntime) {
    for (place, (label, words)) in LABELS.iter().enumerate() {
        assert!(rt; is_sealed(rt.alloc(), *label, words), "{place}");
    }
    let fault = sealed(rt.alloc(), (1, 2, &[233], Scheme::Ascii, Size::Side12)).err();
    assert!(rt; fault == Some(SealFault::TooLong));
}

// A document, the size and the encodation of its labels, and where its parts end; or none, if it has too many.
#[rattlefmt::skip]
const DOCUMENTS: [(&[u8], Size, Scheme, &[usize]); 10] = [
    (&[1], Size::Side14, Scheme::Base256, &[1, 1]),
    (b"", Size::Side14, Scheme::Ascii, &[0, 0]),
    (b"1234", Size::Side12, Scheme::Ascii, &[2, 4]),
    (b"AIM", Size::Side14, Scheme::C40, &[3, 3]),
    (&[b'7'; 32], Size::Side12, Scheme::Ascii, &[2, 4, 6, 8, 10, 12, 14, 16, 18, 20, 22, 24, 26, 28, 30, 32]),
    (&[b'7'; 33], Size::Side12, Scheme::Ascii, &[]),
    (&[233], Size::Side12, Scheme::Ascii, &[]),
    (b"", Size::Side10, Scheme::Ascii, &[]),
    (&[233; 20_752], Size::Side132, Scheme::Base256, &[1297, 2594, 3891, 5188, 6485, 7782, 9079, 10_376, 11_673,
        12_970, 14_267, 15_564, 16_861, 18_158, 19_455, 20_752]),
    (&[233; 20_753], Size::Side132, Scheme::Base256, &[]),
];

#[test]
fn documents_are_cut(rt: HostRuntime) {
    for (document, size, scheme, wanted) in DOCUMENTS {
        let is_cut = match cut(document, size, scheme) {
            Ok(ends) => ends.as_slice() == wanted,
            Err(_) => wanted.is_empty(),
        };
        assert!(rt; is_cut, "{} bytes", document.len());
    }
}

// Why a grid is no label, if both calls that open one say the same.
fn refusal_of(alloc: Global, grid: &Grid) -> Option<LabelFault> {
    let fault = open_page(&grid.lend(), &mut [0u8; MOST_PAGE_BYTES]).err()?;
    if open_label(alloc, grid).err() == Some(fault) {
        Some(fault)
    } else {
        None
    }
}

// Why a symbol with these data codewords is no label, if it is none.
fn fault_of(alloc: Global, size: Size, data: &[u8]) -> Result<Option<LabelFault>, AllocError> {
    if data.len() != size.data_words() {
        return Ok(None);
    }
    let grid = draw_symbol(alloc, size, data)?;
    Ok(refusal_of(alloc, &grid))
}

// Data codewords, a size, and why such a symbol is no label.
#[rattlefmt::skip]
const NO_LABELS: [(&[u8], Size, LabelFault); 8] = [
    (&[233, 32, 1, 1, 129], Size::Side12, LabelFault::Sequence { word: 32 }),
    (&[233, 47, 1, 1, 129], Size::Side12, LabelFault::Sequence { word: 47 }),
    (&[233, 47, 255, 1, 129], Size::Side12, LabelFault::Sequence { word: 47 }),
    (&[233, 15, 255, 1, 129], Size::Side12, LabelFault::FileId),
    (&[233, 15, 1, 0, 129], Size::Side12, LabelFault::FileId),
    (&[66, 15, 1, 1, 129], Size::Side12, LabelFault::NotAppended),
    (&[142, 164, 186], Size::Side10, LabelFault::NotAppended),
    (&[233, 15, 1, 1, 232], Size::Side12, LabelFault::Content(DecodeFault::Unsupported { at: 5, word: 232 })),
];

#[test]
fn heads_are_told_apart(rt: HostRuntime) {
    for (place, (data, size, fault)) in NO_LABELS.iter().enumerate() {
        assert!(rt;
            fault_of(rt.alloc(), *size, data).expect(&rt, "it is done") == Some(*fault),
            "{place}"
        );
    }
    assert!(rt; FileId::of_words(254, 254).expect(&rt, "an ID").number() == 64_515);
    assert!(rt; FileId::of_words(255, 1) == None && FileId::of_number(64_516) == None);
}

// How many codewords of a label were corrected, and how many modules on its frame are wrong.
fn wear(alloc: Global, label: &Grid) -> Result<(u16, u16), LabelFault> {
    let opened = open_label(alloc, label)?;
    Ok((opened.corrected, opened.wrong))
}

// Five modules on the frame, and one of each of three codewords.
#[rattlefmt::skip]
const WORN: [(u16, u16); 8] = [(0, 0), (0, 1), (0, 2), (0, 3), (0, 4), (1, 9), (4, 6), (8, 3)];

// Of side 12 an eighth of the 44 modules on the frame are 5, and a block with 7 error correction codewords has at most
// 3 wrong codewords.
#[test]
fn labels_are_worn(rt: HostRuntime) {
    let mut label = sealed(rt.alloc(), ONE).expect(&rt, "it is done");
    flip_all(&mut label, &WORN);
    assert!(rt; wear(rt.alloc(), &label) == Ok((3, 5)) && has_page(&label, ONE));
    flip_all(&mut label, &[(9, 8)]);
    assert!(rt; refusal_of(rt.alloc(), &label) == Some(LabelFault::Block { block: 0 }));
    flip_all(&mut label, &[(0, 5)]);
    assert!(rt; refusal_of(rt.alloc(), &label) == Some(LabelFault::Border { wrong: 6 }));
}

// One module of each of three codewords is flipped, and then one of a fourth.
#[test]
#[tactic(auto, unfolding(dm_size::specs::Sizes::row))]
fn three_words_are_near_and_four_are_not(rt: HostRuntime) {
    let label = sealed(rt.alloc(), ONE).expect(&rt, "it is done");
    assert!(rt; label.size() == Size::Side12);
    assert!(rt;
        still_near(rt.alloc(), &label, &[(1, 9), (4, 6), (8, 3)]).expect(&rt, "it is done")
    );
    assert!(rt;
        !still_near(rt.alloc(), &label, &[(1, 9), (4, 6), (8, 3), (9, 8)]).expect(&rt, "it is done")
    );
}
