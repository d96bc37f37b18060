//! Adding a multiple of one word to another: the step of the encoder and of elimination.

ghost use Rattle.std.specs.Prelude.{◌≡◌, length};
ghost use Rattle.dm_gf256.specs.Field.{add_scaled};

use crate::element::Gf;

/// Adds `factor` times the source to the target, place by place. Both have one length.
#[tactic(auto, using(crate::proofs::Divide::add_scaled_by_places))]
pub fn add_multiple(target: &mut [u8], source: &[u8], factor: u8)
    requires { length target.old ≡ length source.now }
    ensures { target.new ≡ add_scaled factor target.old source.now }
{
    for i in 0..target.len() {
        target[i] ^= Gf(factor).mul(Gf(source[i])).0;
    }
}
