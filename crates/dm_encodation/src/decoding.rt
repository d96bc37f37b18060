//! The text of a symbol's data codewords.

ghost use Rattle.std.specs.Prelude.{◌≡◌, ◌≢◌, ◌+◌, ◌-◌, ◌*◌, ◌≤◌, ◌++◌, ℕ, List, length, drop, take, IfOk, IfErr, IfSome, Ok, Some, None};
ghost use Rattle.std.specs.Prelude.{IsErrOf};
ghost use Rattle.dm_encodation.specs.Grammar.{ReadsOnly, StuckOnly};
ghost use Rattle.dm_encodation.specs.inner.Reading.{reading, prepend, step, bytes_of, Collects, Holds};
ghost use Rattle.dm_encodation.specs.declared.fault.DecodeFault.TheVariants.{Memory};
ghost use Rattle.dm_encodation.specs.declared.mode.Mode.TheVariants.{Ascii};

use crate::fault::DecodeFault;
use crate::mode::Mode;
use crate::reader::{Decoded, finish, step};
use std::alloc::Allocator;

// Writes bytes after the first of a room, if it has room for them and had it for those before. Gives how many stand
// there then.
#[inline(always)]
fn put(room: &mut [u8], count: Option<usize>, bytes: &[u8]) -> Option<usize>
    requires { IfSome count (λ n. n ≤ length room.old) }
    ensures put { (before : List ℕ) → Holds room.old count before → Holds room.new result (before ++ bytes.now) }
    ensures same { length room.new ≡ length room.old }
    ensures none { result ≡ None → room.new ≡ room.old }
{
    let count = count?;
    if room.len() - count < bytes.len() {
        return None;
    }
    let end = count + bytes.len();
    room[count..end].copy_from_slice(bytes);
    Some(end)
}

// Writes the bytes that a codeword gives.
#[inline(always)]
fn put_output(room: &mut [u8], count: Option<usize>, output: Decoded) -> Option<usize>
    requires { IfSome count (λ n. n ≤ length room.old) }
    ensures put { (before : List ℕ) → Holds room.old count before → Holds room.new result (before ++ bytes_of output) }
    ensures same { length room.new ≡ length room.old }
{
    match output {
        Decoded::Nothing => count,
        Decoded::One(a) => put(room, count, &[a]),
        Decoded::Two(a, b) => put(room, count, &[a, b]),
        Decoded::Three(a, b, c) => put(room, count, &[a, b, c]),
    }
}

// Writes the bytes of a codeword after the first of a room, if it is a character or two digits in ASCII, and has room.
#[inline(always)]
fn put_ascii(room: &mut [u8], count: usize, word: u8) -> Option<usize>
    requires { count ≤ length room.old }
    ensures put { IfSome result (λ n. (position : ℕ) (before : List ℕ) → Holds room.old (Some count) before
        → (bytes : List ℕ) × (Ok (Ascii, bytes) ≡ step Ascii position word) × Holds room.new (Some n) (before ++ bytes)) }
    ensures same { length room.new ≡ length room.old }
    ensures none { result ≡ None → room.new ≡ room.old }
{
    match word {
        1..=128 => put(room, Some(count), &[word - 1]),
        130..=229 => {
            let number = word - 130;
            put(room, Some(count), &[b'0' + number / 10, b'0' + number % 10])
        }
        _ => None,
    }
}

// Writes the bytes of the codewords from index `from` on up to one that is neither a character nor two digits in ASCII,
// or has no room. Gives its index and how many bytes were written. Most texts are read by this loop alone, which has no
// modes and is faster.
fn read_ascii(room: &mut [u8], words: &[u8], from: usize) -> (usize, usize)
    requires { from ≤ length words.now }
    ensures read { (bytes : List ℕ) × (prepend bytes (reading Ascii (result.0 + 1) (drop result.0 words.now))
        ≡ reading Ascii (from + 1) (drop from words.now)) × Holds room.new (Some result.1) bytes }
    ensures within { result.0 ≤ length words.now }
    ensures same { length room.new ≡ length room.old }
{
    let mut count = 0;
    for at in from..words.len() {
        match put_ascii(room, count, words[at]) {
            Some(more) => count = more,
            None => return (at, count),
        }
    }
    (words.len(), count)
}

// Writes the bytes of the codewords at the front of a room, and gives how many they are, if they have room there.
fn read_words(room: &mut [u8], words: &[u8], from: usize) -> Result<Option<usize>, DecodeFault>
    requires { from ≤ length words.now }
    ensures collects { Collects room.new result (reading Ascii (from + 1) (drop from words.now)) }
    ensures same { length room.new ≡ length room.old }
{
    let (start, written) = read_ascii(room, words, from);
    let mut count = Some(written);
    let mut mode = Mode::Ascii;
    for at in start..words.len() {
        if let Mode::Padded = mode {
            return Ok(count);
        }
        let (next, output) = step(mode, at + 1, words[at])?;
        count = put_output(room, count, output);
        mode = next;
    }
    let output = finish(mode, words.len() + 1)?;
    Ok(put_output(room, count, output))
}

/// Writes the bytes that the data codewords from index `from` on read as at the front of the caller's room, and gives
/// how many they are (ISO/IEC 16022:2006, 5.2; how a run of C40 or Text ends is this project's own rule). The codewords
/// begin in ASCII, and their end is the symbol's end. It takes no memory.
///
/// # Errors
/// The first fault from the left, which is never `Memory`.
#[tactic(auto, using(std::proofs::lemmas::Result::err_from_is_err_and, crate::proofs::Reread::bytes_from, crate::proofs::Reread::decided_fault, crate::proofs::Reread::never_memory))]
pub fn decode_to_slice(words: &[u8], from: usize, room: &mut [u8]) -> Result<usize, DecodeFault>
    requires place { from ≤ length words.now }
    requires wide { 2 * (length words.now - from) ≤ length room.old }
    ensures read { IfOk result (λ count. (count ≤ length room.new)
        × ReadsOnly (from + 1) (drop from words.now) (take count room.new)) }
    ensures stuck { IfErr result (λ f. (f ≢ Memory) × StuckOnly (from + 1) (drop from words.now) f) }
    ensures same { length room.new ≡ length room.old }
{
    match read_words(room, words, from)? {
        Some(count) => Ok(count),
        None => unreachable!(),
    }
}

/// The bytes that [`decode_to_slice`] writes, in memory of the allocator.
///
/// # Errors
/// The first fault from the left. `Memory` comes only where the codewords have no fault, since all of
/// them are looked through even if memory is refused.
#[tactic(auto, using(std::proofs::lemmas::Result::err_from_is_err_and, crate::proofs::Reread::bytes_from, crate::proofs::Reread::decided_fault, crate::proofs::Reread::never_memory))]
pub fn decode<A: Allocator + Copy>(
    alloc: A,
    words: &[u8],
    from: usize,
) -> Result<Vec<u8, A>, DecodeFault>
    requires { from ≤ length words.now }
    ensures read { IfOk result (λ v. ReadsOnly (from + 1) (drop from words.now) v.items) }
    ensures stuck { IfErr result (λ f. f ≢ Memory → StuckOnly (from + 1) (drop from words.now) f) }
    ensures memory { IsErrOf result Memory → (bytes : List ℕ)
        × ReadsOnly (from + 1) (drop from words.now) bytes }
{
    let Ok(mut bytes) = vec![in alloc; 0u8; 2 * (words.len() - from)] else {
        read_words(&mut [], words, from)?;
        return Err(DecodeFault::Memory);
    };
    let count = decode_to_slice(words, from, &mut bytes)?;
    bytes.truncate(count);
    Ok(bytes)
}
