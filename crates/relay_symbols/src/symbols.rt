//! Symbols for programs in C.

ghost use Rattle.std.specs.Prelude.{Ok, Err, MatchResult};
ghost use Rattle.relay_symbols.specs.Symbols.{AnswersCode, DrawsText, DrawsWords, ReadsText};

use crate::images::{grid_image, image_from, lent_grid};
use crate::refusal::{Refusal, answer};
use dm_encodation::{DecodeFault, EncodeFault, Scheme, decode, encode};
use dm_placement::MOST_WORDS;
use dm_size::Size;
use dm_symbol::{correct_words, draw_symbol, draw_words};
use std::alloc::{Allocator, Global};

// The bytes of the image of the symbol of a text.
fn text_image<A: Allocator + Copy>(alloc: A, side: u16, text: &[u8]) -> Result<Vec<u8, A>, Refusal>
    ensures { MatchResult result (λ bytes. DrawsText side text.now (Ok bytes.items))
        (λ refusal. DrawsText side text.now (Err refusal)) }
{
    let size = Size::of_side(side).ok_or(Refusal::NoSide)?;
    let data = match encode(alloc, Scheme::Ascii, text, &[], size) {
        Ok(data) => data,
        Err(EncodeFault::TooLong) => return Err(Refusal::TooLong),
        Err(EncodeFault::Memory) => return Err(Refusal::NoMemory),
    };
    let grid = draw_symbol(alloc, size, &data)?;
    Ok(grid_image(alloc, &grid)?)
}

/// Draws the symbol of this side that carries the text, in ASCII encodation with no head. Answers how many bytes its
/// image has, which are then at the front of `image`; or -1 (no size has this side), -4 (the text does not fit), -9
/// (the image has no room) or -10 (memory was refused), and leaves `image` as it was.
#[unsafe(no_mangle)]
pub extern "C" fn relay_symbol_from_text(
    alloc: Global,
    side: u16,
    text: &[u8],
    image: &mut [u8],
) -> isize
    ensures { AnswersCode (DrawsText side text.now) image.old image.new result }
{
    answer(text_image(alloc, side, text), image)
}

// The bytes of the image of a symbol's codewords, if they are as many as it has.
fn words_image<A: Allocator + Copy>(
    alloc: A,
    side: u16,
    words: &[u8],
) -> Result<Vec<u8, A>, Refusal>
    ensures { MatchResult result (λ bytes. DrawsWords side words.now (Ok bytes.items))
        (λ refusal. DrawsWords side words.now (Err refusal)) }
{
    let size = Size::of_side(side).ok_or(Refusal::NoSide)?;
    if words.len() != size.all_words() {
        return Err(Refusal::WordCount);
    }
    let grid = draw_words(alloc, size, words)?;
    Ok(grid_image(alloc, &grid)?)
}

/// Draws the grid of all codewords of a symbol of this side, data codewords first, whether they are those of a symbol
/// or not. Answers how many bytes its image has, which are then at the front of `image`; or -1 (no size has this side),
/// -2 (the codewords are not as many as it has), -9 (the image has no room) or -10 (memory was refused), and leaves
/// `image` as it was.
#[unsafe(no_mangle)]
pub extern "C" fn relay_image_from_words(
    alloc: Global,
    side: u16,
    words: &[u8],
    image: &mut [u8],
) -> isize
    ensures { AnswersCode (DrawsWords side words.now) image.old image.new result }
{
    answer(words_image(alloc, side, words), image)
}

// The text of the symbol of an image.
fn text_of<A: Allocator + Copy>(alloc: A, image: &[u8]) -> Result<Vec<u8, A>, Refusal>
    ensures { MatchResult result (λ text. ReadsText image.now (Ok text.items))
        (λ refusal. ReadsText image.now (Err refusal)) }
{
    let image = image_from(alloc, image)?;
    let grid = lent_grid(&image)?;
    let mut room = [0; MOST_WORDS];
    let words = &mut room[..grid.size().all_words()];
    let Ok(_) = correct_words(&grid, words) else {
        return Err(Refusal::TooManyWrong);
    };
    match decode(alloc, &words[..grid.size().data_words()], 0) {
        Ok(text) => Ok(text),
        Err(DecodeFault::Memory) => Err(Refusal::NoMemory),
        Err(_) => Err(Refusal::NoText),
    }
}

/// Reads the symbol of the image that `image` begins with, and corrects it. Answers the length of its text, which is
/// then at the front of `text`; or -5 (`image` begins with no image of a symbol), -6 (too many codewords, or modules of
/// the finder patterns, are wrong), -8 (the codewords are no text), -9 (the text has no room) or -10 (memory was
/// refused), and leaves `text` as it was.
#[unsafe(no_mangle)]
pub extern "C" fn relay_text_from_image(alloc: Global, image: &[u8], text: &mut [u8]) -> isize
    ensures { AnswersCode (ReadsText image.now) text.old text.new result }
{
    answer(text_of(alloc, image), text)
}
