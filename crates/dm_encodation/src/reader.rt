//! Reading codeword by codeword.

ghost use Rattle.std.specs.Prelude.{◌≡◌, ℕ, ◌+◌, ◌<◌, ◌≤◌, IfOk, Ok};
ghost use Rattle.dm_encodation.specs.inner.Reading;
ghost use Rattle.dm_encodation.specs.inner.Reading.{seen, seen_end, seen_unit, IsMode};
ghost use Rattle.dm_encodation.specs.declared.mode.Mode.TheVariants.{Length, LongLength};

use crate::fault::DecodeFault;
use crate::letters::Letters;
use crate::mode::{Mode, NO_PENDING};
use crate::values::pair_step;

/// The bytes that one codeword gives.
#[derive(Clone, Copy)]
pub(crate) enum Decoded {
    Nothing,
    One(u8),
    Two(u8, u8),
    Three(u8, u8, u8),
}

// A codeword in ASCII.
#[tactic(auto, unfolding(crate::specs::inner::Reading::ascii_step))]
fn ascii_step(position: usize, word: u8) -> Result<(Mode, Decoded), DecodeFault>
    ensures step { seen result ≡ Reading.ascii_step position word }
    ensures mode { 0 < position → IfOk result (λ x. IsMode x.0 (position + 1)) }
{
    match word {
        0 => Err(DecodeFault::Reserved { at: position, word }),
        1..=128 => Ok((Mode::Ascii, Decoded::One(word - 1))),
        129 => Ok((Mode::Padded, Decoded::Nothing)),
        130..=229 => {
            let number = word - 130;
            Ok((
                Mode::Ascii,
                Decoded::Two(b'0' + number / 10, b'0' + number % 10),
            ))
        }
        230 => Ok((Mode::Run(Letters::Capital, NO_PENDING), Decoded::Nothing)),
        231 => Ok((Mode::Length, Decoded::Nothing)),
        235 => Ok((Mode::Upper, Decoded::Nothing)),
        239 => Ok((Mode::Run(Letters::Small, NO_PENDING), Decoded::Nothing)),
        232..=241 => Err(DecodeFault::Unsupported { at: position, word }),
        242..=255 => Err(DecodeFault::Reserved { at: position, word }),
    }
}

// The codeword after Upper Shift.
#[tactic(auto, unfolding(crate::specs::inner::Reading::upper_step))]
fn upper_step(position: usize, word: u8) -> Result<(Mode, Decoded), DecodeFault>
    ensures step { seen result ≡ Reading.upper_step position word }
    ensures mode { IfOk result (λ x. (p : ℕ) → IsMode x.0 p) }
{
    match word {
        1..=128 => Ok((Mode::Ascii, Decoded::One(word + 127))),
        _ => Err(DecodeFault::Reserved { at: position, word }),
    }
}

// A codeword taken out of the 255-state algorithm. It is kept apart from `step`: drawn into a loop over all codewords,
// its shift would be worked out for each of them, in every mode.
#[inline(never)]
#[tactic(auto, unfolding(crate::specs::inner::Reading::value_255))]
fn value_255(position: usize, word: u8) -> u8
    ensures { result ≡ Reading.value_255 position word }
{
    let shift = (149 * (position % 255)) % 255 + 1;
    if shift <= word as usize {
        word - shift as u8
    } else {
        (word as usize + 256 - shift) as u8
    }
}

// The mode in which this many bytes of Base 256 are left.
fn bytes_left(count: usize, at: usize) -> Mode
    ensures mode { result ≡ Reading.bytes_left count at }
    ensures fits { (p : ℕ) → IsMode result p }
{
    if count == 0 {
        Mode::Ascii
    } else {
        Mode::Bytes(count, at)
    }
}

// The first codeword of a length.
#[tactic(auto, unfolding(crate::specs::inner::Reading::step))]
fn length_step(position: usize, word: u8) -> (Mode, Decoded)
    requires { 1 < position }
    ensures step { seen (Ok result) ≡ Reading.step Length position word }
    ensures next { IsMode result.0 (position + 1) }
{
    let value = value_255(position, word);
    let next = if value == 0 {
        Mode::Rest
    } else if value < 250 {
        bytes_left(value as usize, position - 1)
    } else {
        Mode::LongLength(value)
    };
    (next, Decoded::Nothing)
}

// The second codeword of a length whose first is 250 or more.
#[tactic(auto, unfolding(crate::specs::inner::Reading::step))]
fn long_length_step(first: u8, position: usize, word: u8) -> Result<(Mode, Decoded), DecodeFault>
    requires place { 2 < position }
    requires long { 250 ≤ first }
    ensures step { seen result ≡ Reading.step (LongLength first) position word }
    ensures next { IfOk result (λ x. IsMode x.0 (position + 1)) }
{
    let value = value_255(position, word);
    if value >= 250 {
        return Err(DecodeFault::Reserved { at: position, word });
    }
    let count = 250 * (first as usize - 249) + value as usize;
    Ok((bytes_left(count, position - 2), Decoded::Nothing))
}

/// What one codeword does in a mode: the next mode, and the bytes that it gives.
#[inline(always)]
#[tactic(auto, unfolding(crate::specs::inner::Reading::step))]
pub(crate) fn step(mode: Mode, position: usize, word: u8) -> Result<(Mode, Decoded), DecodeFault>
    requires place { 0 < position }
    requires mode { IsMode mode position }
    ensures step { seen result ≡ Reading.step mode position word }
    ensures next { IfOk result (λ x. IsMode x.0 (position + 1)) }
{
    match mode {
        Mode::Ascii => ascii_step(position, word),
        Mode::Upper => upper_step(position, word),
        Mode::Run(letters, pending) => {
            if word == 254 {
                Ok((Mode::Ascii, Decoded::Nothing))
            } else {
                Ok((Mode::Half(letters, pending, word), Decoded::Nothing))
            }
        }
        Mode::Half(letters, pending, first) => pair_step(
            letters,
            pending,
            position - 1,
            first,
            word,
        ),
        Mode::Length => Ok(length_step(position, word)),
        Mode::LongLength(first) => long_length_step(first, position, word),
        Mode::Bytes(count, at) => Ok((
            bytes_left(count - 1, at),
            Decoded::One(value_255(position, word)),
        )),
        Mode::Rest => Ok((Mode::Rest, Decoded::One(value_255(position, word)))),
        Mode::Padded => Ok((Mode::Padded, Decoded::Nothing)),
    }
}

// The end of the codewords, where the mode isn't `Half`.
fn ended(mode: Mode, position: usize) -> Result<(), DecodeFault>
    requires { IsMode mode position }
    ensures { seen_unit result ≡ Reading.ended mode position }
{
    match mode {
        Mode::Upper | Mode::Length => Err(DecodeFault::Cut { at: position - 1 }),
        Mode::LongLength(_) => Err(DecodeFault::Cut { at: position - 2 }),
        Mode::Bytes(_, at) => Err(DecodeFault::Cut { at }),
        _ => Ok(()),
    }
}

/// The end of the codewords: the bytes that come only here, those of a codeword that a run left over, read in
/// ASCII.
#[tactic(auto, unfolding(crate::specs::inner::Reading::finish))]
pub(crate) fn finish(mode: Mode, position: usize) -> Result<Decoded, DecodeFault>
    requires { IsMode mode position }
    ensures { seen_end result ≡ Reading.finish mode position }
{
    match mode {
        Mode::Half(_, _, word) => {
            let (next, output) = ascii_step(position - 1, word)?;
            ended(next, position)?;
            Ok(output)
        }
        _ => {
            ended(mode, position)?;
            Ok(Decoded::Nothing)
        }
    }
}
