//! The characters of C40 and Text, by the values that spell them.

ghost use Rattle.std.specs.Prelude.{◌≡◌, ◌<◌, ◌≤◌, ◌++◌, ◌∷◌, [], length, IfSome};
ghost use Rattle.dm_encodation.specs.Grammar.{values_of, values_below_128};
ghost use Rattle.dm_encodation.specs.inner.Reading;
ghost use Rattle.dm_encodation.specs.inner.Reading.{option_bytes};

use crate::letters::Letters;
use crate::mode::Set;

/// The shift, if any, and the value of a byte below 128.
#[tactic(auto, unfolding(crate::specs::Grammar::values_below_128))]
pub(crate) fn spelled(letters: Letters, byte: u8) -> (Option<u8>, u8)
    requires { byte < 128 }
    ensures values { option_bytes result.0 ++ result.1 ∷ [] ≡ values_below_128 letters byte }
    ensures low { (result.1 < 40) × IfSome result.0 (λ s. s < 3) }
{
    match byte {
        0..=31 => (Some(0), byte),
        32 => (None, 3),
        33..=47 => (Some(1), byte - 33),
        48..=57 => (None, byte - 44),
        58..=64 => (Some(1), byte - 43),
        65..=90 => match letters {
            Letters::Capital => (None, byte - 51),
            Letters::Small => (Some(2), byte - 64),
        },
        91..=95 => (Some(1), byte - 69),
        96 => (Some(2), 0),
        97..=122 => match letters {
            Letters::Capital => (Some(2), byte - 96),
            Letters::Small => (None, byte - 83),
        },
        _ => (Some(2), byte - 96),
    }
}

// The number of values that spell a byte below 128.
fn low_values_in(letters: Letters, byte: u8) -> u8
    requires { byte < 128 }
    ensures exact { result ≡ length (values_below_128 letters byte) }
    ensures few { result ≤ 2 }
{
    match spelled(letters, byte).0 {
        Some(_) => 2,
        None => 1,
    }
}

/// The number of values that spell a byte.
#[tactic(auto, unfolding(crate::specs::Grammar::values_of))]
pub(crate) fn values_in(letters: Letters, byte: u8) -> u8
    ensures exact { result ≡ length (values_of letters byte) }
    ensures few { result ≤ 4 }
{
    if byte < 128 {
        low_values_in(letters, byte)
    } else {
        2 + low_values_in(letters, byte - 128)
    }
}

/// The byte of a value in a set.
#[tactic(auto, unfolding(crate::specs::inner::Reading::byte_in))]
pub(crate) fn byte_in(letters: Letters, set: Set, value: u8) -> Option<u8>
    ensures byte { result ≡ Reading.byte_in letters set value }
    ensures low { IfSome result (λ b. b < 128) }
{
    match (set, letters) {
        (Set::Basic, _) => match value {
            0..=2 => None,
            3 => Some(b' '),
            4..=13 => Some(value + 44),
            14..=39 => match letters {
                Letters::Capital => Some(value + 51),
                Letters::Small => Some(value + 83),
            },
            _ => None,
        },
        (Set::First, _) => if value < 32 { Some(value) } else { None },
        (Set::Second, _) => match value {
            0..=14 => Some(value + 33),
            15..=21 => Some(value + 43),
            22..=26 => Some(value + 69),
            _ => None,
        },
        (Set::Third, Letters::Capital) => if value < 32 { Some(value + 96) } else { None },
        (Set::Third, Letters::Small) => match value {
            0 => Some(96),
            1..=26 => Some(value + 64),
            27..=31 => Some(value + 96),
            _ => None,
        },
    }
}
