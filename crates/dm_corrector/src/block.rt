//! Correction of one block.

ghost use Rattle.std.specs.Prelude.{◌≡◌, ◌<◌, ◌≤◌, ◌-◌, ◌↔◌, length, take, IsTrue};
ghost use Rattle.std.specs.List.{All};
ghost use Rattle.dm_gf256.specs.Field.{differ, IsSoundBlock};
ghost use Rattle.dm_corrector.specs.{Symbols.EndsCorrection, inner.Polynomials.IsRemainder};

use crate::elements::is_zero;
use crate::error_values::take_out;
use crate::locate::Locate;
use crate::massey::Massey;
use crate::roots::roots_of;
use crate::syndromes::{MOST_BLOCK_WORDS, syndromes_of};
use dm_check_blocks::{MOST_CHECKS, checks_of};
use dm_gf256::add_multiple;
use thiserror::Error;

/// No sound block is within the limit of wrong codewords.
#[derive(Clone, Copy, Debug, PartialEq, Eq, Error)]
#[error("no sound block is near enough to the block")]
pub struct Uncorrectable;

/// The number of places where two words of one length differ.
#[tactic(auto, using(crate::proofs::Differences::differ_other, crate::proofs::Differences::differ_same))]
pub(crate) fn differing(left: &[u8], right: &[u8]) -> usize
    requires { length left.now ≡ length right.now }
    ensures places { result ≡ differ left.now right.now }
    ensures few { result ≤ length left.now }
    ensures bytes { All (λ x. x < 256) right.now }
{
    let mut places = 0;
    for i in 0..left.len() {
        if left[i] != right[i] {
            places += 1;
        }
    }
    places
}

// Whether a block is a sound block: whether its error correction codewords are those of its data codewords.
fn is_block_word(block: &[u8], checks: usize) -> bool
    requires some { 1 ≤ checks }
    requires most { checks ≤ MOST_CHECKS }
    requires longer { checks < length block.now }
    requires fits { length block.now ≤ MOST_BLOCK_WORDS }
    ensures { IsTrue result ↔ IsSoundBlock checks block.now }
{
    let (message, last) = block.split_at(block.len() - checks);
    let mut room = [0; MOST_CHECKS];
    let wanted = &mut room[..checks];
    checks_of(message, wanted);
    &*wanted == last
}

// Corrects one block that has this remainder, by the error locator polynomial that `locate` finds.
fn correct_wrong<L: Locate>(
    locate: &L,
    block: &mut [u8],
    checks: usize,
    remainder: &[u8],
) -> Result<u8, Uncorrectable>
    requires remainder { IsRemainder checks block.old remainder.now }
    requires bytes { All (λ word. word < 256) block.old }
    requires short { length remainder.now ≤ MOST_CHECKS }
    requires some { 1 ≤ checks }
    requires most { checks ≤ MOST_CHECKS }
    requires longer { checks < length block.old }
    requires fits { length block.old ≤ MOST_BLOCK_WORDS }
    ensures { EndsCorrection checks block.old result block.new }
{
    let syndromes = syndromes_of(remainder, checks / 2 * 2);
    let used = syndromes.as_slice();
    let locator = locate.locate(used);
    let roots = roots_of(locator.as_slice(), block.len());
    let mut copy = [0; MOST_BLOCK_WORDS];
    let corrected = &mut copy[..block.len()];
    corrected.copy_from_slice(block);
    take_out(corrected, used, roots.as_slice());
    if is_block_word(corrected, checks) {
        let changed = differing(block, corrected);
        block.copy_from_slice(corrected);
        Ok(changed as u8)
    } else {
        Err(Uncorrectable)
    }
}

// Writes the remainder of a block by the generator polynomial, given the sound block that its data codewords have: the
// sum of the error correction codewords of both.
fn write_remainder(block: &[u8], word: &[u8], remainder: &mut [u8])
    requires most { length remainder.old ≤ MOST_CHECKS }
    requires longer { length remainder.old < length block.now }
    requires size { length word.now ≡ length block.now }
    requires data { take (length block.now - length remainder.old) word.now
        ≡ take (length block.now - length remainder.old) block.now }
    requires completed { IsSoundBlock (length remainder.old) word.now }
    ensures remainder { IsRemainder (length remainder.old) block.now remainder.new }
    ensures bytes { All (λ word. word < 256) block.now }
{
    let data = block.len() - remainder.len();
    let (_, last) = block.split_at(data);
    let (_, wanted) = word.split_at(data);
    remainder.copy_from_slice(last);
    add_multiple(remainder, wanted, 1);
}

/// Corrects one block, given the sound block that its data codewords have, by the error locator polynomial that
/// `locate` finds.
pub(crate) fn correct_completed<L: Locate>(
    locate: &L,
    block: &mut [u8],
    word: &[u8],
    checks: usize,
) -> Result<u8, Uncorrectable>
    requires some { 1 ≤ checks }
    requires most { checks ≤ MOST_CHECKS }
    requires longer { checks < length block.old }
    requires fits { length block.old ≤ MOST_BLOCK_WORDS }
    requires size { length word.now ≡ length block.old }
    requires data { take (length block.old - checks) word.now ≡ take (length block.old - checks) block.old }
    requires completed { IsSoundBlock checks word.now }
    ensures { EndsCorrection checks block.old result block.new }
{
    let mut room = [0; MOST_CHECKS];
    let remainder = &mut room[..checks];
    write_remainder(block, word, remainder);
    if is_zero(remainder) {
        Ok(0)
    } else {
        correct_wrong(locate, block, checks, remainder)
    }
}

/// Corrects one block of 2 to 255 codewords, the last `checks` of which are error correction codewords, by the error
/// locator polynomial that `locate` finds. At most `checks / 2` codewords are put right: Ok gives their number, and the
/// block is then the one sound block that differs from what it was in at most `checks / 2` places (ISO/IEC 16022:2006,
/// Annex E).
///
/// # Errors
/// Where there is no such sound block; the block is then unchanged.
pub fn correct_with<L: Locate>(
    locate: &L,
    block: &mut [u8],
    checks: usize,
) -> Result<u8, Uncorrectable>
    requires some { 1 ≤ checks }
    requires most { checks ≤ MOST_CHECKS }
    requires longer { checks < length block.old }
    requires fits { length block.old ≤ MOST_BLOCK_WORDS }
    ensures { EndsCorrection checks block.old result block.new }
{
    let data = block.len() - checks;
    let mut room = [0; MOST_BLOCK_WORDS];
    let word = &mut room[..block.len()];
    word.copy_from_slice(block);
    checks_of(&block[..data], &mut word[data..]);
    correct_completed(locate, block, word, checks)
}

/// Corrects one block of 2 to 255 codewords, the last `checks` of which are error correction codewords, by Berlekamp
/// and Massey's method: as `correct_with` does. Ok gives the number of codewords that were put right, at most `checks /
/// 2`.
///
/// # Errors
/// Where no sound block differs from the block in at most `checks / 2` places; the block is then unchanged.
pub fn correct(block: &mut [u8], checks: usize) -> Result<u8, Uncorrectable>
    requires some { 1 ≤ checks }
    requires most { checks ≤ MOST_CHECKS }
    requires longer { checks < length block.old }
    requires fits { length block.old ≤ MOST_BLOCK_WORDS }
    ensures { EndsCorrection checks block.old result block.new }
{
    correct_with(&Massey, block, checks)
}
