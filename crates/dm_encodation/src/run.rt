//! The codewords of a text in C40 or Text encodation: a run of pairs, and what the run leaves in ASCII.

ghost use Rattle.std.specs.Prelude.{◌≡◌, ◌<◌, ◌≤◌, ◌++◌, ◌∷◌, [], length, OnOk, IfOk};
ghost use Rattle.std.specs.List.{flat_map};
ghost use Rattle.dm_encodation.specs.Grammar.{values_of, values_below_128, latch};
ghost use Rattle.dm_encodation.specs.inner.Counting.{AreValues, WritesValues};
ghost use Rattle.dm_encodation.specs.Written.{pairs, run_length, run_and_rest, is_whole_run};

use crate::ascii::push_ascii;
use crate::characters::{spelled, values_in};
use crate::letters::Letters;
use std::alloc::{AllocError, Allocator};

// Values that wait until they are three.
#[derive(Clone, Copy)]
enum Held {
    Nothing,
    One(u8),
    Two(u8, u8),
}

// Takes one more value; three of them are two codewords.
fn push_value<A: Allocator>(out: &mut Vec<u8, A>, held: Held, value: u8) -> Result<Held, AllocError>
    requires value { value < 40 }
    requires held { AreValues held }
    ensures values { IfOk result AreValues }
    ensures wrote { IfOk result (λ h. WritesValues out.old.items held (value ∷ []) out.new.items h) }
{
    match held {
        Held::Nothing => Ok(Held::One(value)),
        Held::One(first) => Ok(Held::Two(first, value)),
        Held::Two(first, second) => {
            let number = 1600 * first as u32 + 40 * second as u32 + value as u32 + 1;
            out.push((number / 256) as u8)?;
            out.push((number % 256) as u8)?;
            Ok(Held::Nothing)
        }
    }
}

// Takes the values of a byte below 128.
fn push_low<A: Allocator>(
    out: &mut Vec<u8, A>,
    letters: Letters,
    held: Held,
    byte: u8,
) -> Result<Held, AllocError>
    requires byte { byte < 128 }
    requires held { AreValues held }
    ensures values { IfOk result AreValues }
    ensures wrote { IfOk result
        (λ h. WritesValues out.old.items held (values_below_128 letters byte) out.new.items h) }
{
    let (shift, value) = spelled(letters, byte);
    let shifted = match shift {
        Some(shift) => push_value(out, held, shift)?,
        None => held,
    };
    push_value(out, shifted, value)
}

// Takes the values of a byte.
#[tactic(auto, unfolding(crate::specs::Grammar::values_of))]
fn push_byte<A: Allocator>(
    out: &mut Vec<u8, A>,
    letters: Letters,
    held: Held,
    byte: u8,
) -> Result<Held, AllocError>
    requires { AreValues held }
    ensures values { IfOk result AreValues }
    ensures wrote { IfOk result
        (λ h. WritesValues out.old.items held (values_of letters byte) out.new.items h) }
{
    if byte < 128 {
        return push_low(out, letters, held, byte);
    }
    let shifted = push_value(out, held, 1)?;
    let upper = push_value(out, shifted, 30)?;
    push_low(out, letters, upper, byte - 128)
}

// Writes the pairs of a run.
fn push_pairs<A: Allocator>(
    out: &mut Vec<u8, A>,
    letters: Letters,
    bytes: &[u8],
) -> Result<(), AllocError>
    ensures { OnOk result (out.new.items
        ≡ out.old.items ++ pairs (flat_map (values_of letters) bytes.now)) }
{
    let mut held = Held::Nothing;
    for byte in bytes {
        held = push_byte(out, letters, held, *byte)?;
    }
    Ok(())
}

// The number of bytes of the run: the longest front whose values are whole triples.
#[tactic(auto, using(std::proofs::lemmas::Grind::common_steps, crate::proofs::RunWords::over_more, crate::proofs::RunWords::run_within, crate::proofs::RunWords::whole_more, crate::proofs::RunWords::whole_same))]
fn run_bytes(letters: Letters, bytes: &[u8]) -> usize
    ensures exact { result ≡ run_length letters bytes.now }
    ensures within { result ≤ length bytes.now }
{
    let mut over = 0;
    let mut whole = 0;
    for (index, byte) in bytes.iter().enumerate() {
        over = (over + values_in(letters, *byte)) % 3;
        if over == 0 {
            whole = index + 1;
        }
    }
    whole
}

// The codeword that latches to the encodation.
fn latch_word(letters: Letters) -> u8
    ensures { result ≡ latch letters }
{
    match letters {
        Letters::Capital => 230,
        Letters::Small => 239,
    }
}

/// Writes the codewords of a text after what was written before. Gives whether the text is a run and
/// nothing else.
#[tactic(auto, using(std::proofs::lemmas::Grind::common_steps, crate::proofs::RunWords::no_run, crate::proofs::RunWords::part_run, crate::proofs::RunWords::run_alone, crate::proofs::RunWords::run_none, crate::proofs::RunWords::run_parts, crate::proofs::RunWords::whole_run))]
pub(crate) fn push_run<A: Allocator>(
    out: &mut Vec<u8, A>,
    letters: Letters,
    bytes: &[u8],
) -> Result<bool, AllocError>
    ensures words { OnOk result (out.new.items
        ≡ out.old.items ++ run_and_rest letters (run_length letters bytes.now) bytes.now) }
    ensures in_run { IfOk result (λ in_run. in_run ≡ is_whole_run letters bytes.now) }
{
    let length = run_bytes(letters, bytes);
    if length == 0 {
        push_ascii(out, bytes)?;
        return Ok(false);
    }
    out.push(latch_word(letters))?;
    push_pairs(out, letters, &bytes[..length])?;
    if length < bytes.len() {
        out.push(254)?;
        push_ascii(out, &bytes[length..])?;
        return Ok(false);
    }
    Ok(true)
}
