//! Reading the values of C40 and Text, and the pairs of codewords that hold three of them.

ghost use Rattle.std.specs.Prelude.{◌≡◌, ◌+◌, ◌<◌, ◌++◌, ◌∷◌, [], IfOk, IfSome};
ghost use Rattle.dm_encodation.specs.inner.Reading;
ghost use Rattle.dm_encodation.specs.inner.Reading.{seen, seen_value, bytes_of, option_bytes, fault_of, IsMode};

use crate::characters::byte_in;
use crate::fault::DecodeFault;
use crate::letters::Letters;
use crate::mode::{Mode, NO_PENDING, Pending, Set, ValueFault};
use crate::reader::Decoded;

// The end of a character.
fn end_character(upper: bool, byte: Option<u8>) -> Result<(Pending, Option<u8>), ValueFault>
    requires { IfSome byte (λ b. b < 128) }
    ensures { seen_value result ≡ Reading.character_ended upper byte }
{
    match byte {
        None => Err(ValueFault::Missing),
        Some(byte) => Ok((NO_PENDING, Some(if upper { byte + 128 } else { byte }))),
    }
}

// One value of a run.
#[tactic(auto, unfolding(crate::specs::inner::Reading::value_step))]
fn value_step(
    letters: Letters,
    pending: Pending,
    value: u8,
) -> Result<(Pending, Option<u8>), ValueFault>
    ensures { seen_value result ≡ Reading.value_step letters pending value }
{
    let upper = pending.upper;
    match (pending.set, value) {
        (Set::Basic, 0) => Ok((
            Pending {
                upper,
                set: Set::First,
            },
            None,
        )),
        (Set::Basic, 1) => Ok((
            Pending {
                upper,
                set: Set::Second,
            },
            None,
        )),
        (Set::Basic, 2) => Ok((
            Pending {
                upper,
                set: Set::Third,
            },
            None,
        )),
        (Set::Second, 27) => Err(ValueFault::Fnc1),
        (Set::Second, 30) if !upper => Ok((
            Pending {
                upper: true,
                set: Set::Basic,
            },
            None,
        )),
        (set, _) => end_character(upper, byte_in(letters, set, value)),
    }
}

// The fault of a pair that begins with this codeword.
fn pair_fault(fault: ValueFault, position: usize, word: u8) -> DecodeFault
    ensures { result ≡ fault_of fault position word }
{
    match fault {
        ValueFault::Fnc1 => DecodeFault::Unsupported { at: position, word },
        ValueFault::Missing => DecodeFault::Reserved { at: position, word },
    }
}

// The bytes of up to three characters.
fn joined(first: Option<u8>, second: Option<u8>, third: Option<u8>) -> Decoded
    ensures { bytes_of result
        ≡ option_bytes first ++ (option_bytes second ++ (option_bytes third ++ [])) }
{
    match (first, second, third) {
        (None, None, None) => Decoded::Nothing,
        (Some(a), None, None) | (None, Some(a), None) | (None, None, Some(a)) => Decoded::One(a),
        (Some(a), Some(b), None) | (Some(a), None, Some(b)) | (None, Some(a), Some(b)) =>
            Decoded::Two(a, b),
        (Some(a), Some(b), Some(c)) => Decoded::Three(a, b, c),
    }
}

// Three values of a run.
fn values_step(
    letters: Letters,
    pending: Pending,
    first: u8,
    second: u8,
    third: u8,
) -> Result<(Pending, Decoded), ValueFault>
    ensures { seen result ≡ Reading.values_step letters pending (first ∷ second ∷ third ∷ []) }
{
    let (pending, first) = value_step(letters, pending, first)?;
    let (pending, second) = value_step(letters, pending, second)?;
    let (pending, third) = value_step(letters, pending, third)?;
    Ok((pending, joined(first, second, third)))
}

/// A pair of a run.
#[tactic(auto, unfolding(crate::specs::inner::Reading::pair_step))]
pub(crate) fn pair_step(
    letters: Letters,
    pending: Pending,
    position: usize,
    first: u8,
    second: u8,
) -> Result<(Mode, Decoded), DecodeFault>
    ensures step { seen result ≡ Reading.pair_step letters pending position first second }
    ensures mode { IfOk result (λ x. IsMode x.0 (position + 2)) }
{
    let number = 256 * first as u32 + second as u32;
    if number == 0 || number > 64000 {
        return Err(DecodeFault::Reserved {
            at: position,
            word: first,
        });
    }
    let values = number - 1;
    match values_step(
        letters,
        pending,
        (values / 1600) as u8,
        (values / 40 % 40) as u8,
        (values % 40) as u8,
    ) {
        Ok((pending, output)) => Ok((Mode::Run(letters, pending), output)),
        Err(fault) => Err(pair_fault(fault, position, first)),
    }
}
