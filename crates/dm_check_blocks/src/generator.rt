//! Generator polynomials.

ghost use Rattle.std.specs.Prelude.{◌≡◌, ◌<◌, ◌≤◌, ◌+◌, ℕ, length, take, slice_index};
ghost use Rattle.dm_gf256.specs.Field.{power, value};

use dm_gf256::{Gf, add_multiple};

/// The most error correction codewords of one block: those of side 48.
pub const MOST_CHECKS: usize = 68;

/// The coefficients of the longest generator polynomial, one more than it has roots.
pub(crate) const GENERATOR_WORDS: usize = 69;

/// The coefficients of the generator polynomial for `count` error correction codewords, (x + 2^1)(x + 2^2) .. (x +
/// 2^count), the highest power first, whose coefficient is 1; zeros follow them.
pub(crate) fn coefficients_of(count: usize) -> [u8; GENERATOR_WORDS]
    requires { count ≤ MOST_CHECKS }
    ensures size { length result ≡ GENERATOR_WORDS }
    ensures first { slice_index result 0 ≡ 1 }
    ensures zeros { (j : ℕ) → count < j → slice_index result j ≡ 0 }
    ensures roots { (k : ℕ) → 1 ≤ k → k ≤ count → value (take (count + 1) result) (power 2 k) ≡ 0 }
{
    let mut coefficients = [0; GENERATOR_WORDS];
    coefficients[0] = 1;
    for k in 0..count {
        let before = coefficients;
        let root = Gf::alpha(k as u8 + 1).0;
        add_multiple(&mut coefficients[1..k + 2], &before[..k + 1], root);
    }
    coefficients
}
