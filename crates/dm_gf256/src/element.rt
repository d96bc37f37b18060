//! The elements of the field, and the value of a polynomial.

ghost use Rattle.std.specs.{Prelude.◌≡◌, Prelude.◌<◌, Prelude.◌≤◌, Prelude.◌+◌, Prelude.length, Int.Bits.bit_xor};
ghost use Rattle.dm_gf256.specs.Field.{product, power, value, numbers, ArePowers};

use crate::powers::{POWERS, exponent_of};

/// An element of the field: bit i is the coefficient of x^i.
#[derive(Clone, Copy, Debug, Default, PartialEq, Eq, Hash)]
pub struct Gf(pub u8);

impl Gf {
    /// The sum, which is the difference too.
    pub fn add(self, other: Gf) -> Gf
        ensures { result.0 ≡ bit_xor self.0 other.0 }
    {
        Gf(self.0 ^ other.0)
    }

    /// The product modulo x^8 + x^5 + x^3 + x^2 + 1: the sum of two exponents is that of the product.
    pub fn mul(self, other: Gf) -> Gf
        ensures { result.0 ≡ product self.0 other.0 }
    {
        Gf(POWERS[exponent_of(self.0) as usize + exponent_of(other.0) as usize])
    }

    /// The inverse of an element that isn't zero: 255 less its exponent is that of the inverse.
    #[tactic(auto, using(crate::proofs::Tables::inverse_table))]
    pub fn inv(self) -> Gf
        requires { 0 < self.0 }
        ensures { product self.0 result.0 ≡ 1 }
    {
        Gf(POWERS[255 - exponent_of(self.0) as usize])
    }

    /// 2, the primitive element, to the power k.
    #[tactic(auto, using(crate::proofs::Tables::powers_table))]
    pub fn alpha(k: u8) -> Gf
        ensures { result.0 ≡ power 2 k }
    {
        Gf(POWERS[k as usize])
    }

    /// The powers of 2, the primitive element, from 2^first on. They repeat after 255 of them.
    pub fn powers(first: usize, count: usize) -> &'static [u8]
        requires { first + count ≤ 510 }
        ensures powers { ArePowers first result.now }
        ensures count { length result.now ≡ count }
    {
        &POWERS[first..first + count]
    }

    /// The value at x of a polynomial, its first element being the coefficient of the highest power.
    #[tactic(auto, using(crate::proofs::Evals::value_more), unfolding(crate::specs::Field::value))]
    pub fn eval(poly: &[Gf], x: Gf) -> Gf
        ensures { result.0 ≡ value (numbers poly.now) x.0 }
    {
        let mut sum = Gf(0);
        for c in poly {
            sum = Gf(sum.mul(x).0 ^ c.0);
        }
        sum
    }
}
