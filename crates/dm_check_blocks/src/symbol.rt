//! The codewords of a whole symbol: its blocks, interleaved.

ghost use Rattle.std.specs.Prelude.{◌≡◌, ◌<◌, ◌+◌, ℕ, List, IfOk, length, slice_index, take};
ghost use Rattle.std.specs.List.{All};
ghost use Rattle.dm_gf256.specs.Field.{IsSoundBlock};
ghost use Rattle.dm_size.specs.Sizes.{data_words, all_words, blocks, block_data, block_checks, block_length};
ghost use Rattle.dm_check_blocks.specs.Blocks.{position, block_of, Completes};
ghost use Rattle.dm_check_blocks.specs.inner.Remainders.{row_at, KeepsOtherWords, HoldsData, HoldsChecks};

use crate::checks::checks_of;
use crate::multiples::{WINDOW_WORDS, Window, divide};
use dm_size::Size;
use std::alloc::{AllocError, Allocator};

// The most blocks of a symbol, those of side 132.
const MOST_BLOCKS: usize = 8;

/// Where a codeword of a block stands in its symbol. Blocks, codewords of a block and codewords of the symbol count
/// from 0, and a block's data codewords come before its error correction codewords (ISO/IEC 16022:2006, Annex A).
#[tactic(auto, using(crate::proofs::Interleaving::positions))]
pub fn block_word(size: Size, block: usize, word: usize) -> usize
    requires block { block < blocks size }
    requires word { word < block_length size }
    ensures position { result ≡ position size block word }
    ensures in_symbol { result < all_words size }
{
    word * size.blocks() + block
}

// The data codewords of one block, and zeros after them.
#[tactic(auto, using(std::proofs::lemmas::Grind::common_steps, crate::proofs::Interleaving::gathered_more))]
fn data_of_block(size: Size, block: usize, words: &[u8]) -> Window
    requires block { block < blocks size }
    requires count { length words.now ≡ all_words size }
    ensures { HoldsData size block words.now result }
{
    let mut data = [0; WINDOW_WORDS];
    for i in 0..size.block_data() {
        data[i] = words[block_word(size, block, i)];
    }
    data
}

// Reads the data codewords of each block into its window.
fn read_blocks(size: Size, words: &[u8], windows: &mut [Window])
    requires count { length words.now ≡ all_words size }
    requires windows { length windows.old ≡ blocks size }
    ensures { (b : ℕ) → b < blocks size → HoldsData size b words.now (row_at windows.new b) }
{
    for block in 0..windows.len() {
        windows[block] = data_of_block(size, block, words);
    }
}

// Writes the error correction codewords of one block to their places.
#[tactic(auto, using(crate::proofs::Interleaving::written_more, crate::proofs::Interleaving::others_more))]
fn write_checks(size: Size, block: usize, words: &mut [u8], checks: &[u8])
    requires block { block < blocks size }
    requires count { length words.old ≡ all_words size }
    requires checks { length checks.now ≡ block_checks size }
    ensures written { (k : ℕ) → k < block_checks size
        → slice_index words.new (position size block (block_data size + k)) ≡ slice_index checks.now k }
    ensures others { KeepsOtherWords size block words.old words.new }
{
    let data = size.block_data();
    for k in 0..checks.len() {
        words[block_word(size, block, data + k)] = checks[k];
    }
}

// Writes the error correction codewords of each block from its window.
fn write_blocks(size: Size, words: &mut [u8], windows: &[Window])
    requires count { length words.old ≡ all_words size }
    requires windows { length windows.now ≡ blocks size }
    ensures written { (b : ℕ) → b < blocks size → HoldsChecks size b words.new (row_at windows.now b) }
    ensures message { (p : ℕ) → p < data_words size → slice_index words.new p ≡ slice_index words.old p }
{
    let data = size.block_data();
    let end = data + size.block_checks();
    for block in 0..windows.len() {
        write_checks(size, block, words, &windows[block][data..end]);
    }
}

// Completes the blocks in turns, step by step of the division.
fn complete_in_turns(size: Size, words: &mut [u8])
    requires count { length words.old ≡ all_words size }
    ensures completed { (b : ℕ) → b < blocks size → IsSoundBlock (block_checks size) (block_of size b words.new) }
    ensures message { (p : ℕ) → p < data_words size → slice_index words.new p ≡ slice_index words.old p }
    ensures bytes { All (λ word. word < 256) words.new }
{
    let mut windows = [[0; WINDOW_WORDS]; MOST_BLOCKS];
    let windows = &mut windows[..size.blocks()];
    read_blocks(size, words, windows);
    divide(size.block_checks(), windows, size.block_data());
    write_blocks(size, words, windows);
}

/// Completes every block of the codewords of a symbol, which begin with the message: each gets the error correction
/// codewords of its data codewords, in place (ISO/IEC 16022:2006, 5.7 and Annexes A and E).
pub fn complete_blocks(size: Size, message: &[u8], words: &mut [u8])
    requires count { length words.old ≡ all_words size }
    requires data { length message.now ≡ data_words size }
    requires begins { take (data_words size) words.old ≡ message.now }
    ensures completed { (b : ℕ) → b < blocks size → IsSoundBlock (block_checks size) (block_of size b words.new) }
    ensures message { (p : ℕ) → p < data_words size → slice_index words.new p ≡ slice_index words.old p }
    ensures bytes { All (λ word. word < 256) words.new }
{
    if size.blocks() == 1 {
        checks_of(message, &mut words[message.len()..]);
    } else {
        complete_in_turns(size, words);
    }
}

/// Fills the caller's room with all codewords of a symbol, as [`complete`] gives them. It takes no memory.
pub fn complete_in(size: Size, message: &[u8], words: &mut [u8])
    requires message { length message.now ≡ data_words size }
    requires room { length words.old ≡ all_words size }
    ensures { Completes size message.now words.new }
{
    words[..message.len()].copy_from_slice(message);
    complete_blocks(size, message, words);
}

/// All codewords of the symbol whose data codewords are the message, as many as the size has: the message, and after it
/// the error correction codewords of the blocks, interleaved (ISO/IEC 16022:2006, 5.7 and Annex A). No other list
/// begins with the message and consists of sound blocks. At side 10 the message `142 164 186` gives `142 164 186 114 25
/// 5 88 102`.
///
/// # Errors
/// Where the allocator refuses its memory.
pub fn complete<A: Allocator + Copy>(
    alloc: A,
    size: Size,
    message: &[u8],
) -> Result<Vec<u8, A>, AllocError>
    requires { length message.now ≡ data_words size }
    ensures completed { IfOk result (λ words. Completes size message.now words.items) }
    ensures only { IfOk result (λ words. (others : List ℕ)
        → Completes size message.now others → others ≡ words.items) }
{
    let mut words = vec![in alloc; 0; size.all_words()]?;
    complete_in(size, message, words.as_mut_slice());
    Ok(words)
}
