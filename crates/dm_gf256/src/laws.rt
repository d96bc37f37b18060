//! Laws of the field and of sound blocks. The functions do nothing: their contracts are the laws.

ghost use Rattle.std.specs.Prelude.{◌≡◌, ◌<◌, ◌≤◌, ◌≢◌, ℕ, length};
ghost use Rattle.std.specs.Int.Bits.{bit_xor};
ghost use Rattle.dm_gf256.specs.Field.{product, power, differ, IsSoundBlock};

/// With the sum, the product makes a commutative ring, in which 1 is neutral.
#[tactic(auto, using(crate::proofs::Ring::ring_laws))]
pub fn ring()
    ensures commutative { (a : ℕ) → (b : ℕ) → product a b ≡ product b a }
    ensures associative { (a : ℕ) → (b : ℕ) → (c : ℕ) → product (product a b) c ≡ product a (product b c) }
    ensures distributive { (a : ℕ) → (b : ℕ) → (c : ℕ) → product a (bit_xor b c) ≡ bit_xor (product a b) (product a c) }
    ensures neutral { (a : ℕ) → a < 256 → product 1 a ≡ a }
    ensures closed { (a : ℕ) → (b : ℕ) → product a b < 256 }
{}

/// Every element but zero has an inverse.
pub fn inverses()
    ensures { (a : ℕ) → 0 < a → a < 256 → (b : ℕ) × (b < 256) × (product a b ≡ 1) }
{}

/// The powers 0 to 254 of 2 are distinct.
#[tactic(auto, using(crate::proofs::Ring::power_two_distinct))]
pub fn powers_distinct()
    ensures { (i : ℕ) → (j : ℕ) → i < j → j < 255 → power 2 i ≢ power 2 j }
{}

/// Two sound blocks of one length, at most 255, that differ in at most as many places as they have
/// error correction codewords are equal.
pub fn block_words_apart(left: &[u8], right: &[u8], checks: u8)
    requires same { length left.now ≡ length right.now }
    requires fits { length left.now ≤ 255 }
    requires left_word { IsSoundBlock checks left.now }
    requires right_word { IsSoundBlock checks right.now }
    requires near { differ left.now right.now ≤ checks }
    ensures { left.now ≡ right.now }
{}
