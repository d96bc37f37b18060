//! The number of codewords that a text takes, and how much of a text fits a room.

ghost use Rattle.std.specs.Prelude.{◌≡◌, ◌≤◌, ◌^◌, length};
ghost use Rattle.dm_encodation.specs.Written.{need_of, IsGreatestPrefix};

use crate::counter::Counter;
use crate::scheme::Scheme;

/// The number of codewords that a text of any length takes, counted byte by byte.
#[tactic(auto, using(std::proofs::lemmas::Grind::common_steps, crate::proofs::Counters::small))]
pub(crate) fn word_count(scheme: Scheme, bytes: &[u8]) -> u128
    ensures { result ≡ need_of scheme bytes.now }
{
    let mut counter = Counter::start(scheme);
    for byte in bytes {
        counter = counter.with(*byte);
    }
    counter.words()
}

/// The number of data codewords that the bytes take in a scheme, before any pad (ISO/IEC 16022:2006,
/// 5.2, and this project's own rule where the standard leaves a choice). The bytes are at most 2^30.
pub fn need(scheme: Scheme, bytes: &[u8]) -> usize
    requires { length bytes.now ≤ 2 ^ 30 }
    ensures { result ≡ need_of scheme bytes.now }
{
    word_count(scheme, bytes) as usize
}

// The greatest prefix that fits, where each prefix is looked at.
#[tactic(auto, using(std::proofs::lemmas::Grind::common_steps, crate::proofs::Counters::small))]
fn greatest_prefix(scheme: Scheme, bytes: &[u8], room: usize) -> usize
    ensures { IsGreatestPrefix scheme room bytes.now result }
{
    let mut counter = Counter::start(scheme);
    let mut greatest = 0;
    for (index, byte) in bytes.iter().enumerate() {
        counter = counter.with(*byte);
        if counter.words() <= room as u128 {
            greatest = index + 1;
        }
    }
    greatest
}

/// The greatest number of bytes at the front of a text that together take at most `room` codewords. A
/// shorter front may take more codewords than a longer one, so longer fronts may fit again where one
/// does not. None of more than two bytes a codeword does.
pub fn fit(scheme: Scheme, bytes: &[u8], room: usize) -> usize
    ensures { IsGreatestPrefix scheme room bytes.now result }
{
    let most = bytes.len().min(room.saturating_mul(2));
    greatest_prefix(scheme, &bytes[..most], room)
}
