//! From a grid to a page.

ghost use Rattle.std.specs.Prelude.{◌≤◌, IfOk, MatchResult, Ok, Err};
ghost use Rattle.dm_symbol.specs.Correction.{data_of};
ghost use Rattle.dm_append_label.specs.Labels.{IsHead, head_of};
ghost use Rattle.dm_append_label.specs.Opening.{IsPageOf, LabelOpens, OpensAs, ReadsPage, RefusesLabel, page_at_front};

use crate::fault::LabelFault;
use crate::file_id::FileId;
use crate::head::{HEAD_WORDS, Head, read_head};
use crate::page::Page;
use dm_encodation::decode_to_slice;
use dm_finder_frame::{Grid, LentGrid};
use dm_symbol::{Corrected, correct_grid};
use std::alloc::{Allocator, Global};

/// The most bytes of a page: 1,300 pairs of digits in the greatest symbol.
pub const MOST_PAGE_BYTES: usize = 2600;

/// What a label was opened as.
#[derive(Drop)]
pub struct Opened<A: Allocator = Global> {
    /// Its page.
    pub page: Page<A>,
    /// How many of its codewords were wrong, and were corrected.
    pub corrected: u16,
    /// How many modules of its finder patterns are wrong.
    pub wrong: u16,
}

/// A page that was found in a symbol. Its bytes are the first of the room that was handed in.
#[derive(Clone, Copy, Debug, PartialEq, Eq)]
pub struct FoundPage {
    /// The ID of its document.
    pub id: FileId,
    /// Which page it is, from 1.
    pub m: u8,
    /// How many pages its document has, 2 to 16.
    pub n: u8,
    /// How many bytes it has.
    pub count: usize,
}

/// Finds the page that a corrected symbol has in its data codewords: the head of a label, and the text after it, read
/// from codeword 5 (ISO/IEC 16022:2006, 5.6). It takes no memory.
///
/// # Errors
/// The first fault that applies, in the order of `LabelFault`, from `NotAppended` on, and never `Memory`.
pub fn find_page(
    symbol: &Corrected,
    room: &mut [u8; MOST_PAGE_BYTES],
) -> Result<FoundPage, LabelFault>
    ensures page { MatchResult result
        (λ page. IsPageOf (data_of symbol.now.size symbol.now.words) (page_at_front room.new page))
        (λ fault. ReadsPage (data_of symbol.now.size symbol.now.words) (Err fault)) }
    ensures bounds { IfOk result (λ page. IsHead (head_of (page_at_front room.new page))
        × (page.count ≤ MOST_PAGE_BYTES)) }
{
    let data = symbol.data();
    let Head { m, n, id } = read_head(data)?;
    match decode_to_slice(data, HEAD_WORDS, room) {
        Ok(count) => Ok(FoundPage { id, m, n, count }),
        Err(fault) => Err(LabelFault::Content(fault)),
    }
}

/// Opens a label, from any grid: corrects the codewords of its symbol and finds the page after the head. A grid that is
/// near a label, so that each of its blocks has no more wrong codewords than can be corrected, opens as that label's
/// page or not at all, and it opens where its finder patterns are within their limit (ISO/IEC 16022:2006, 5.6 and 5.7,
/// Annexes A, E and F). It takes no memory.
///
/// A grid of side 12 whose data codewords, corrected, are `233 15 1 1 50` opens as page 1 of 2 of the ID 0, with
/// the one byte `1`. A grid of side 10 is no label: its three data codewords have no room for a head.
///
/// # Errors
/// The first fault that applies, in the order of `LabelFault`, and never `Memory`.
pub fn open_page(grid: &LentGrid, room: &mut [u8; MOST_PAGE_BYTES]) -> Result<FoundPage, LabelFault>
    ensures opens { MatchResult result (λ page. LabelOpens grid.now (Ok (page_at_front room.new page)))
        (λ fault. LabelOpens grid.now (Err fault)) }
    ensures bounds { IfOk result (λ page. IsHead (head_of (page_at_front room.new page))
        × (page.count ≤ MOST_PAGE_BYTES)) }
{
    let symbol = correct_grid(grid)?;
    find_page(&symbol, room)
}

/// Opens a label as [`open_page`] does, and says how much of it was wrong.
///
/// # Errors
/// The first fault that applies, in the order of `LabelFault`. Memory is asked for once the page is found.
pub fn open_label<A: Allocator + Copy>(alloc: A, grid: &Grid<A>) -> Result<Opened<A>, LabelFault>
    ensures { MatchResult result (λ opened. LabelOpens grid.now (Ok opened.page)
        × OpensAs grid.now opened.page opened.corrected opened.wrong) (RefusesLabel grid.now) }
{
    let symbol = correct_grid(&grid.lend())?;
    let mut room = [0u8; MOST_PAGE_BYTES];
    let FoundPage { id, m, n, count } = find_page(&symbol, &mut room)?;
    let Ok(bytes) = room[..count].to_vec(alloc) else {
        return Err(LabelFault::Memory);
    };
    let Some(page) = Page::new(id, m, n, bytes) else {
        unreachable!()
    };
    let (corrected, wrong) = (symbol.corrected(), symbol.wrong());
    Ok(Opened {
        page,
        corrected,
        wrong,
    })
}
