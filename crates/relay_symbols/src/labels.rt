//! Labels for programs in C.

ghost use Rattle.std.specs.Prelude.{◌≡◌, ◌⊎◌, Ok, Err, MatchResult};
ghost use Rattle.dm_append_label.specs.Labels.{IsHead};
ghost use Rattle.relay_symbols.specs.Symbols.{AnswersCode, DrawsLabel, BeginsWithPage};
ghost use Rattle.relay_symbols.specs.declared.refusal.Refusal.TheVariants.{NoPage, NoMemory};

use crate::images::{grid_image, image_from, lent_grid};
use crate::refusal::{Refusal, answer};
use dm_append_label::{FileId, LabelFault, MOST_PAGE_BYTES, Page, SealFault, open_page, seal};
use dm_encodation::Scheme;
use dm_size::Size;
use std::alloc::{Allocator, Global};

// The page of a text: page m of n of the document of an ID, given by its number.
fn page_of_text<A: Allocator + Copy>(
    alloc: A,
    id: u16,
    m: u8,
    n: u8,
    text: &[u8],
) -> Result<Page<A>, Refusal>
    ensures { MatchResult result
        (λ page. (page ≡ record { id = id; m = m; n = n; bytes = text.now })
        × IsHead (record { id = id; m = m; n = n }))
        (λ refusal. ((refusal ≡ NoPage) × (IsHead (record { id = id; m = m; n = n }) → ⊥)) ⊎ (refusal ≡ NoMemory)) }
{
    let id = FileId::of_number(id).ok_or(Refusal::NoPage)?;
    Page::new(id, m, n, text.to_vec(alloc)?).ok_or(Refusal::NoPage)
}

// The bytes of the image of a label.
fn label_image<A: Allocator + Copy>(
    alloc: A,
    side: u16,
    id: u16,
    m: u8,
    n: u8,
    text: &[u8],
) -> Result<Vec<u8, A>, Refusal>
    ensures { MatchResult result
        (λ bytes. DrawsLabel side (record { id = id; m = m; n = n; bytes = text.now }) (Ok bytes.items))
        (λ refusal. DrawsLabel side (record { id = id; m = m; n = n; bytes = text.now }) (Err refusal)) }
{
    let size = Size::of_side(side).ok_or(Refusal::NoSide)?;
    let page = page_of_text(alloc, id, m, n, text)?;
    let label = match seal(alloc, &page, size, Scheme::Ascii) {
        Ok(label) => label,
        Err(SealFault::TooLong) => return Err(Refusal::TooLong),
        Err(SealFault::Memory) => return Err(Refusal::NoMemory),
    };
    Ok(grid_image(alloc, &label)?)
}

/// Draws the label of this side of page `m` of `n` that has this text, under the ID of this number, in
/// ASCII encodation. Answers how many bytes its image has, which are then at the front of `image`; or -1 (no size has
/// this side), -3 (the number is above 64,515, or there is no such page: `n` is 2 to 16, `m` 1 to `n`), -4 (the text
/// does not fit after the head), -9 (the image has no room) or -10 (memory was refused), and leaves `image` as it was.
#[unsafe(no_mangle)]
pub extern "C" fn relay_label_from_text(
    alloc: Global,
    side: u16,
    id: u16,
    m: u8,
    n: u8,
    text: &[u8],
    image: &mut [u8],
) -> isize
    ensures { AnswersCode (DrawsLabel side (record { id = id; m = m; n = n; bytes = text.now }))
        image.old image.new result }
{
    answer(label_image(alloc, side, id, m, n, text), image)
}

// The bytes of the page of the label of an image.
fn page_bytes<A: Allocator + Copy>(alloc: A, image: &[u8]) -> Result<Vec<u8, A>, Refusal>
    ensures { MatchResult result (λ bytes. BeginsWithPage image.now (Ok bytes.items))
        (λ refusal. BeginsWithPage image.now (Err refusal)) }
{
    let image = image_from(alloc, image)?;
    let grid = lent_grid(&image)?;
    let mut room = [0u8; MOST_PAGE_BYTES];
    match open_page(&grid, &mut room) {
        Ok(page) => Ok(room[..page.count].to_vec(alloc)?),
        Err(LabelFault::Border { .. } | LabelFault::Block { .. }) => Err(Refusal::TooManyWrong),
        Err(LabelFault::Content(_)) => Err(Refusal::NoText),
        Err(_) => Err(Refusal::NoLabel),
    }
}

/// Opens the label of the image that `image` begins with, and corrects it. Answers the number of its page's bytes,
/// which are then at the front of `bytes`; or -5 (`image` begins with no image of a symbol), -6 (too many codewords, or
/// modules of the finder patterns, are wrong), -7 (the codewords have no head), -8 (what follows it is no text), -9
/// (the bytes have no room) or -10 (memory was refused), and leaves `bytes` as they were.
#[unsafe(no_mangle)]
pub extern "C" fn relay_page_from_image(alloc: Global, image: &[u8], bytes: &mut [u8]) -> isize
    ensures { AnswersCode (BeginsWithPage image.now) bytes.old bytes.new result }
{
    answer(page_bytes(alloc, image), bytes)
}
