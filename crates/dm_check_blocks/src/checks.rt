//! The error correction codewords of one block: the remainder of its data codewords by the generator polynomial.

ghost use Rattle.std.specs.Prelude.{◌≡◌, ◌<◌, ◌≤◌, ◌+◌, ℕ, List, length, ◌++◌};
ghost use Rattle.std.specs.List.{All};
ghost use Rattle.dm_gf256.specs.Field.{IsSoundBlock};
ghost use Rattle.dm_check_blocks.specs.inner.Remainders.{IsGenerator, AddsWord};

use crate::generator::MOST_CHECKS;
use crate::multiples::{ROW_WORDS, WINDOW_WORDS, divide, generator_row};
use dm_gf256::add_multiple;

// Divides one codeword more of the message: `checks` is the remainder so far, and `generator` the generator
// polynomial without its leading 1.
#[tactic(auto, using(crate::proofs::Remainders::step_value))]
fn step(checks: &mut [u8], generator: &[u8], word: u8)
    requires some { 0 < length checks.old }
    requires same { length checks.old ≡ length generator.now }
    ensures { AddsWord generator.now word checks.old checks.new }
{
    let factor = word ^ checks[0];
    checks.rotate_left(1);
    let last = checks.len() - 1;
    checks[last] = 0;
    add_multiple(checks, generator, factor);
}

// Fills in the error correction codewords of one block codeword by codeword, by its generator polynomial without its
// leading 1.
#[tactic(auto, using(crate::proofs::Remainders::word_by_word, crate::proofs::DivisionSteps::zeros_at), unfolding(dm_gf256::specs::Field::value))]
fn fill_word_by_word(message: &[u8], checks: &mut [u8], generator: &[u8])
    requires some { 1 ≤ length checks.old }
    requires same { length checks.old ≡ length generator.now }
    requires roots { IsGenerator generator.now }
    ensures { IsSoundBlock (length checks.old) (message.now ++ checks.new) }
{
    checks.fill(0);
    for word in message {
        step(checks, generator, *word);
    }
}

// The fewest data codewords for which the multiples of the generator polynomial are worth their making.
const FEWEST_BY_ROWS: usize = 19;

// Fills in the error correction codewords of one block by the multiples of its generator polynomial.
fn fill_by_rows(message: &[u8], checks: &mut [u8])
    requires some { 1 ≤ length message.now }
    requires most { length checks.old ≤ MOST_CHECKS }
    requires fits { length message.now + length checks.old ≤ 255 }
    ensures { IsSoundBlock (length checks.old) (message.now ++ checks.new) }
{
    let count = message.len();
    let mut window = [0; WINDOW_WORDS];
    window[..count].copy_from_slice(message);
    let mut windows = [window];
    divide(checks.len(), &mut windows, count);
    checks.copy_from_slice(&windows[0][count..count + checks.len()]);
}

/// Fills in the error correction codewords of one block. There are 1 to 68 of them, and at most 255 codewords together
/// with the message, the block's data codewords, of which the first is the coefficient of the highest power (ISO/IEC
/// 16022:2006, Annex E).
pub fn checks_of(message: &[u8], checks: &mut [u8])
    requires some { 1 ≤ length checks.old }
    requires most { length checks.old ≤ MOST_CHECKS }
    requires fits { length message.now + length checks.old ≤ 255 }
    ensures completed { IsSoundBlock (length checks.old) (message.now ++ checks.new) }
    ensures only { (others : List ℕ) → length others ≡ length checks.old → All (λ word. word < 256) others
        → IsSoundBlock (length checks.old) (message.now ++ others) → others ≡ checks.new }
{
    if message.len() < FEWEST_BY_ROWS {
        let row = generator_row::<ROW_WORDS>(checks.len());
        fill_word_by_word(message, checks, &row[..checks.len()]);
    } else {
        fill_by_rows(message, checks);
    }
}
