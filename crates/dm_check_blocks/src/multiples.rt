//! Division by a generator polynomial, a row of codewords at once.
//!
//! A step of the division takes the multiple of the generator polynomial off that makes the first codeword zero. The
//! factor, a codeword, is the sum of its low and of its high four bits, so its multiple is the sum of two rows of a
//! table: sixteen rows of multiples by the low bits, and sixteen by the high ones.

ghost use Rattle.std.specs.Prelude.{◌≡◌, ◌<◌, ◌≤◌, ◌+◌, ℕ, length, slice_index, take};
ghost use Rattle.std.specs.Int.Bits.{bit_xor};
ghost use Rattle.dm_gf256.specs.Field.{product};
ghost use Rattle.dm_check_blocks.specs.declared.{generator.TheConstants.MOST_CHECKS, multiples.TheConstants.ROW_WORDS};
ghost use Rattle.dm_check_blocks.specs.inner.Remainders.{row_at, IsDivided, IsGenerator, IsStep, AreMultiples};

use crate::generator::{MOST_CHECKS, coefficients_of};
use crate::listed::listed;

/// The codewords of the longest row: room for the most error correction codewords, and a whole number of registers of
/// 16. A row is one multiple of a generator polynomial, without its highest power, and zeros.
pub(crate) const ROW_WORDS: usize = 80;

/// The codewords of a [`Window`]: a block has at most 255, and a row reaches at most 81 codewords past one of them.
pub(crate) const WINDOW_WORDS: usize = 336;

/// A block that is divided in place, and room after it.
pub(crate) type Window = [u8; WINDOW_WORDS];

// Twice a row.
#[tactic(auto, using(std::proofs::lemmas::Grind::common_steps, dm_gf256::proofs::LoopSteps::double_low, dm_gf256::proofs::LoopSteps::double_high))]
fn doubled<const ROW: usize>(row: &[u8; ROW]) -> [u8; ROW]
    requires { ROW ≤ ROW_WORDS }
    ensures size { length result ≡ ROW }
    ensures words { (k : ℕ) → k < ROW → slice_index result k ≡ product 2 (slice_index row.now k) }
{
    let mut twice = *row;
    for k in 0..ROW {
        twice[k] = if row[k] < 128 {
            row[k] << 1
        } else {
            (row[k] << 1) ^ 45
        };
    }
    twice
}

// The sum of two rows.
fn sum<const ROW: usize>(left: &[u8; ROW], right: &[u8]) -> [u8; ROW]
    requires { (ROW ≤ ROW_WORDS) × (length right.now ≡ ROW) }
    ensures size { length result ≡ ROW }
    ensures words { (k : ℕ) → k < ROW
        → slice_index result k ≡ bit_xor (slice_index left.now k) (slice_index right.now k) }
{
    let mut row = *left;
    for k in 0..ROW {
        row[k] ^= right[k];
    }
    row
}

// Adds two rows to as many codewords.
fn add_rows<const ROW: usize>(words: &mut [u8], low: &[u8; ROW], high: &[u8; ROW])
    requires { length words.old ≡ ROW }
    ensures { (k : ℕ) → k < ROW → slice_index words.new k
        ≡ bit_xor (slice_index words.old k) (bit_xor (slice_index low.now k) (slice_index high.now k)) }
{
    for k in 0..ROW {
        words[k] ^= low[k] ^ high[k];
    }
}

// The multiples of a row by 0 to 15.
fn multiples_of<const ROW: usize>(row: &[u8]) -> [[u8; ROW]; 16]
    requires { (ROW ≤ ROW_WORDS) × (length row.now ≡ ROW) }
    ensures count { length result ≡ 16 }
    ensures size { (f : ℕ) → f < 16 → length (row_at result f) ≡ ROW }
    ensures itself { row_at result 1 ≡ row.now }
    ensures multiples { AreMultiples row.now result }
{
    let mut rows = [[0; ROW]; 16];
    for factor in 1..16 {
        rows[factor] = if factor % 2 == 0 {
            doubled(&rows[factor / 2])
        } else {
            sum(&rows[factor - 1], row)
        };
    }
    rows
}

/// The generator polynomial for that many error correction codewords as a row.
pub(crate) fn generator_row<const ROW: usize>(checks: usize) -> [u8; ROW]
    requires most { checks ≤ MOST_CHECKS }
    requires room { (checks ≤ ROW) × (ROW ≤ ROW_WORDS) }
    ensures size { length result ≡ ROW }
    ensures generator { IsGenerator (take checks result) }
    ensures zeros { (k : ℕ) → checks ≤ k → slice_index result k ≡ 0 }
{
    let mut row = [0; ROW];
    match listed(checks) {
        Some(generator) => row[..checks].copy_from_slice(generator),
        None => {
            let coefficients = coefficients_of(checks);
            row[..checks].copy_from_slice(&coefficients[1..checks + 1]);
        }
    }
    row
}

// The multiples of a generator polynomial, by which blocks are divided.
#[derive(Drop)]
struct Multiples<const ROW: usize> {
    // the number of error correction codewords, the generator polynomial's degree
    checks: usize,
    low: [[u8; ROW]; 16],
    high: [[u8; ROW]; 16],
    ghost most: { (checks ≤ ROW) × (ROW ≤ ROW_WORDS) },
    ghost size: { length (row_at low 1) ≡ ROW },
    ghost generator: { IsGenerator (take checks (row_at low 1)) },
    ghost zeros: { (k : ℕ) → checks ≤ k → slice_index (row_at low 1) k ≡ 0 },
    ghost multiples: { AreMultiples (row_at low 1) low },
    ghost high_multiples: { (f k : ℕ) → f < 16 → k < ROW
        → slice_index (row_at high f) k ≡ product f (product 16 (slice_index (row_at low 1) k)) },
}

impl<const ROW: usize> Multiples<ROW> {
    // The multiples of the generator polynomial for that many error correction codewords.
    #[tactic(auto, using(crate::proofs::DivisionSteps::sixteen_times))]
    fn of_generator(checks: usize) -> Multiples<ROW>
        requires most { checks ≤ MOST_CHECKS }
        requires room { (checks ≤ ROW) × (ROW ≤ ROW_WORDS) }
        ensures { result.checks ≡ checks }
    {
        let low: [[u8; ROW]; 16] = multiples_of(&generator_row::<ROW>(checks));
        let high = multiples_of(&doubled(&low[8]));
        Multiples { checks, low, high }
    }

    // One step of the division: takes the multiple of the generator polynomial off that makes the codeword at `at`
    // zero.
    fn step(&self, window: &mut Window, at: usize)
        requires { at < 256 }
        ensures { IsStep self.now.checks at window.old window.new }
    {
        let factor = window[at] as usize;
        let low = &self.low[factor % 16];
        let high = &self.high[factor / 16];
        add_rows(&mut window[at + 1..at + 1 + ROW], low, high);
    }

    // The same step in each window.
    fn step_each(&self, windows: &mut [Window], at: usize)
        requires { at < 256 }
        ensures { (w : ℕ) → w < length windows.old
            → IsStep self.now.checks at (row_at windows.old w) (row_at windows.new w) }
    {
        for window in 0..windows.len() {
            self.step(&mut windows[window], at);
        }
    }

    // Divides as `divide` does.
    fn divide(&self, windows: &mut [Window], count: usize)
        requires some { 1 ≤ count }
        requires fits { count + self.now.checks ≤ 255 }
        ensures { (w : ℕ) → w < length windows.old
            → IsDivided self.now.checks count (row_at windows.old w) (row_at windows.new w) }
    {
        for at in 0..count {
            self.step_each(windows, at);
        }
    }
}

// Divides as `divide` does, by rows of one length. Drawn into its caller, it would make room for the rows of all.
#[inline(never)]
fn divide_by<const ROW: usize>(checks: usize, windows: &mut [Window], count: usize)
    requires checks { (checks ≤ MOST_CHECKS) × (checks ≤ ROW) × (ROW ≤ ROW_WORDS) }
    requires count { (1 ≤ count) × (count + checks ≤ 255) }
    ensures { (w : ℕ) → w < length windows.old
        → IsDivided checks count (row_at windows.old w) (row_at windows.new w) }
{
    Multiples::<ROW>::of_generator(checks).divide(windows, count);
}

/// Divides the block that each window begins with, `count` codewords and `checks` error correction codewords, by the
/// generator polynomial. The remainder stands where the error correction codewords stood; the codewords before it are
/// used up.
///
/// The windows take turns step by step, since each step reads what the one before it wrote beside. Shorter rows are made
/// and added in less time.
pub(crate) fn divide(checks: usize, windows: &mut [Window], count: usize)
    requires most { checks ≤ MOST_CHECKS }
    requires some { 1 ≤ count }
    requires fits { count + checks ≤ 255 }
    ensures { (w : ℕ) → w < length windows.old
        → IsDivided checks count (row_at windows.old w) (row_at windows.new w) }
{
    if checks <= 48 {
        divide_by::<48>(checks, windows, count);
    } else if checks <= 64 {
        divide_by::<64>(checks, windows, count);
    } else {
        divide_by::<ROW_WORDS>(checks, windows, count);
    }
}
