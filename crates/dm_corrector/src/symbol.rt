//! Correction of a whole symbol, block by block.

ghost use Rattle.std.specs.Prelude.{◌≡◌, ◌≢◌, ◌<◌, ℕ, List, length, take, IfOk, IfErr, OnOk, OnErr};
ghost use Rattle.dm_gf256.specs.Field.{differ, IsSoundBlock};
ghost use Rattle.dm_size.specs.Sizes.{all_words, blocks, block_checks, block_data, block_length};
ghost use Rattle.dm_check_blocks.specs.Blocks.{block_of, IsSymbol};
ghost use Rattle.dm_corrector.specs.Symbols.{Corrects, CorrectsSymbol, IsFirstFaulty, block_fault_name};

use crate::block::{Uncorrectable, correct, correct_completed, differing};
use crate::massey::Massey;
use crate::syndromes::MOST_BLOCK_WORDS;
use dm_check_blocks::complete_blocks;
use dm_size::Size;
use thiserror::Error;

// The most codewords of a symbol: those of side 132.
const MOST_SYMBOL_WORDS: usize = 1800;

/// The first block of a symbol that cannot be corrected.
#[derive(Clone, Copy, Debug, PartialEq, Eq, Error)]
#[error("block {block} has too many wrong codewords")]
pub struct BlockFault {
    /// The block's number, from 0.
    pub block: usize,
}

impl BlockFault {
    /// The fault in one word, `Block`.
    pub fn name(self) -> &'static str
        ensures { result.now ≡ block_fault_name self }
    {
        "Block"
    }
}

// Copies a block of a symbol.
#[tactic(auto, using(crate::proofs::SymbolBlocks::in_symbol))]
fn gather(size: Size, number: usize, words: &[u8], block: &mut [u8])
    requires count { length words.now ≡ all_words size }
    requires number { number < blocks size }
    requires long { length block.old ≡ block_length size }
    ensures { block.new ≡ block_of size number words.now }
{
    let blocks = size.blocks();
    for k in 0..block.len() {
        block[k] = words[k * blocks + number];
    }
}

// Copies a block back to its places in the symbol.
#[tactic(auto, using(dm_check_blocks::proofs::Interleaving::block_of_same))]
fn scatter(size: Size, number: usize, words: &mut [u8], block: &[u8])
    requires count { length words.old ≡ all_words size }
    requires number { number < blocks size }
    requires long { length block.now ≡ block_length size }
    ensures own { block.now ≡ block_of size number words.new }
    ensures others { (b : ℕ) → b < blocks size → b ≢ number
        → block_of size b words.new ≡ block_of size b words.old }
{
    let blocks = size.blocks();
    for k in 0..block.len() {
        words[k * blocks + number] = block[k];
    }
}

// Corrects one block of a symbol, given the same codewords with all blocks completed. The codewords of the blocks are
// interleaved: codeword k of block b is codeword k * blocks + b of the symbol.
#[tactic(auto, using(crate::proofs::SymbolBlocks::block_lengths))]
fn correct_block(
    size: Size,
    words: &mut [u8],
    completed: &[u8],
    number: usize,
) -> Result<(), Uncorrectable>
    requires count { length words.old ≡ all_words size }
    requires completed_count { length completed.now ≡ all_words size }
    requires block { number < blocks size }
    requires data { take (block_data size) (block_of size number completed.now)
        ≡ take (block_data size) (block_of size number words.old) }
    requires completed { IsSoundBlock (block_checks size) (block_of size number completed.now) }
    ensures near { OnOk result
        (Corrects (block_checks size) (block_of size number words.old) (block_of size number words.new)) }
    ensures none { OnErr result
        ((w : List ℕ) → Corrects (block_checks size) (block_of size number words.old) w → ⊥) }
    ensures others { (b : ℕ) → b < blocks size → b ≢ number
        → block_of size b words.new ≡ block_of size b words.old }
{
    let mut copy = [0; MOST_BLOCK_WORDS];
    let block = &mut copy[..size.block_length()];
    gather(size, number, words, block);
    let mut room = [0; MOST_BLOCK_WORDS];
    let word = &mut room[..size.block_length()];
    gather(size, number, completed, word);
    correct_completed(&Massey, block, word, size.block_checks())?;
    scatter(size, number, words, block);
    Ok(())
}

/// Corrects all blocks of a symbol, up to `Size::limit` wrong codewords in each. Ok gives the number of codewords that
/// changed in all; the codewords are then the one symbol whose blocks are within the limit of what they were (ISO/IEC
/// 16022:2006, 5.7 and Annex E).
///
/// # Errors
/// The first block to which no sound block is near enough; all codewords are then unchanged.
#[tactic(auto, using(crate::proofs::SymbolBlocks::same_data, crate::proofs::SymbolBlocks::symbol_alone, crate::proofs::SymbolBlocks::none_alone))]
pub fn correct_symbol(size: Size, words: &mut [u8]) -> Result<u16, BlockFault>
    requires { length words.old ≡ all_words size }
    ensures near { OnOk result (CorrectsSymbol size words.old words.new) }
    ensures block_words { OnOk result (IsSymbol size words.new) }
    ensures changed { IfOk result (λ k. k ≡ differ words.old words.new) }
    ensures only { OnOk result ((w : List ℕ) → CorrectsSymbol size words.old w → w ≡ words.new) }

    ensures first { IfErr result (λ fault. IsFirstFaulty size words.old fault.block) }
    ensures none { OnErr result ((w : List ℕ) → CorrectsSymbol size words.old w → ⊥) }
    ensures unchanged { OnErr result (words.new ≡ words.old) }
{
    let blocks = size.blocks();
    if blocks == 1 {
        return match correct(words, size.block_checks()) {
            Ok(changed) => Ok(u16::from(changed)),
            Err(Uncorrectable) => Err(BlockFault { block: 0 }),
        };
    }
    let mut room = [0; MOST_SYMBOL_WORDS];
    let completed = &mut room[..words.len()];
    completed.copy_from_slice(words);
    complete_blocks(size, &words[..size.data_words()], completed);
    if *completed == *words {
        return Ok(0);
    }
    let mut copy = [0; MOST_SYMBOL_WORDS];
    let corrected = &mut copy[..words.len()];
    corrected.copy_from_slice(words);
    for block in 0..blocks {
        if let Err(Uncorrectable) = correct_block(size, corrected, completed, block) {
            return Err(BlockFault { block });
        }
    }
    let changed = differing(words, corrected);
    words.copy_from_slice(corrected);
    Ok(changed as u16)
}
