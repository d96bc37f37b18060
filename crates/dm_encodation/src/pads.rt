//! The pads after a text.

ghost use Rattle.std.specs.Prelude.{◌≡◌, ◌+◌, ◌-◌, ◌<◌, ◌^◌, ◌++◌, OnOk, vec_len};
ghost use Rattle.dm_encodation.specs.Grammar.{pads, state_253};
ghost use Rattle.dm_encodation.specs.Written.{words_after_text};

use std::alloc::{AllocError, Allocator};

// A pad other than the first, by its position (the 253-state algorithm of Annex B).
#[tactic(auto, unfolding(crate::specs::Grammar::state_253))]
fn later_pad(position: usize) -> u8
    requires { position < 2 ^ 32 }
    ensures { result ≡ state_253 position }
{
    let sum = 129 + ((149 * position) % 253 + 1);
    if sum <= 254 {
        sum as u8
    } else {
        (sum - 254) as u8
    }
}

// Fills the symbol up to `capacity` codewords with pads.
#[tactic(auto, using(crate::proofs::Reread::pads_more, crate::proofs::Reread::pads_done))]
fn push_pads<A: Allocator>(out: &mut Vec<u8, A>, capacity: usize) -> Result<(), AllocError>
    requires { capacity < 2 ^ 16 }
    ensures { OnOk result (out.new.items
        ≡ out.old.items ++ pads (vec_len out.old + 1) (capacity - vec_len out.old)) }
{
    if out.len() >= capacity {
        return Ok(());
    }
    out.push(129)?;
    for position in out.len() + 1..capacity + 1 {
        out.push(later_pad(position))?;
    }
    Ok(())
}

/// Fills the symbol after the text up to `capacity` codewords. Where the text ends in a run and more than
/// one codeword is free, 254 ends the run first.
pub(crate) fn fill_up<A: Allocator>(
    out: &mut Vec<u8, A>,
    in_run: bool,
    capacity: usize,
) -> Result<(), AllocError>
    requires { capacity < 2 ^ 16 }
    ensures { OnOk result (out.new.items
        ≡ out.old.items ++ words_after_text in_run (vec_len out.old + 1) (capacity - vec_len out.old)) }
{
    if in_run && out.len() < capacity && capacity - out.len() >= 2 {
        out.push(254)?;
    }
    push_pads(out, capacity)
}
