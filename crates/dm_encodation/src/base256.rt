//! The codewords of a text in Base 256 encodation.

ghost use Rattle.std.specs.Prelude.{◌≡◌, ◌+◌, ◌<◌, ◌≤◌, ◌^◌, ◌++◌, length, OnOk, vec_len};
ghost use Rattle.dm_encodation.specs.Grammar.{state_255, randomised};
ghost use Rattle.dm_encodation.specs.Written.{base_256, length_words};

use std::alloc::{AllocError, Allocator};

// A value as it stands at a position (the 255-state algorithm of Annex B).
#[tactic(auto, unfolding(crate::specs::Grammar::state_255))]
fn randomise(position: usize, value: u8) -> u8
    requires { position < 2 ^ 32 }
    ensures { result ≡ state_255 position value }
{
    let sum = value as usize + ((149 * position) % 255 + 1);
    if sum <= 255 {
        sum as u8
    } else {
        (sum - 256) as u8
    }
}

// Writes values, the first at the position after what was written.
fn push_values<A: Allocator>(out: &mut Vec<u8, A>, values: &[u8]) -> Result<(), AllocError>
    requires { vec_len out.old + length values.now < 2 ^ 31 }
    ensures values { OnOk result (out.new.items
        ≡ out.old.items ++ randomised (vec_len out.old + 1) values.now) }
    ensures length { OnOk result (vec_len out.new ≡ vec_len out.old + length values.now) }
{
    for value in values {
        let position = out.len() + 1;
        out.push(randomise(position, *value))?;
    }
    Ok(())
}

// Writes the length of a text, the first codeword at the position after what was written.
fn push_length<A: Allocator>(out: &mut Vec<u8, A>, count: usize) -> Result<(), AllocError>
    requires place { vec_len out.old < 2 ^ 30 }
    requires short { count ≤ 1555 }
    ensures values { OnOk result (out.new.items
        ≡ out.old.items ++ randomised (vec_len out.old + 1) (length_words count)) }
    ensures length { OnOk result (vec_len out.new ≡ vec_len out.old + length (length_words count)) }
{
    if count <= 249 {
        push_values(out, &[count as u8])
    } else {
        push_values(out, &[(count / 250 + 249) as u8, (count % 250) as u8])
    }
}

/// Writes the codewords of a text after what was written before.
#[tactic(auto, using(std::proofs::lemmas::Grind::common_steps, std::proofs::lemmas::Result::on_ok_weaker, crate::proofs::Base256Words::base_256_nil, crate::proofs::Base256Words::base_256_parts, crate::proofs::Base256Words::empty_is))]
pub(crate) fn push_base_256<A: Allocator>(
    out: &mut Vec<u8, A>,
    bytes: &[u8],
) -> Result<(), AllocError>
    requires place { vec_len out.old < 2 ^ 16 }
    requires short { length bytes.now ≤ 1555 }
    ensures { OnOk result (out.new.items
        ≡ out.old.items ++ base_256 (vec_len out.old + 1) bytes.now) }
{
    if bytes.is_empty() {
        return Ok(());
    }
    out.push(231)?;
    push_length(out, bytes.len())?;
    push_values(out, bytes)
}
