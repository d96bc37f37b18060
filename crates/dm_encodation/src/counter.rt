//! The number of codewords that a text takes, counted byte by byte.

ghost use Rattle.std.specs.Prelude.{◌≡◌, ℕ, ◌<◌, ◌≤◌, ◌*◌, ◌-◌, ◌^◌, ◌++◌, ◌∷◌, [], List, length};
ghost use Rattle.dm_encodation.specs.inner.Counting.{Counts, CountsAscii, CountsRun, IsSmall, IsSmallRun, base_256_need, run_need};
ghost use Rattle.dm_encodation.specs.Written.{ascii_byte, need_of};
ghost use Rattle.dm_encodation.specs.declared.letters.Letters.{Letters};
ghost use Rattle.dm_encodation.specs.declared.scheme.Scheme.{Scheme};

use crate::characters::values_in;
use crate::letters::Letters;
use crate::scheme::Scheme;

/// The codewords of a text in ASCII.
#[derive(Clone, Copy)]
pub(crate) struct AsciiCounter {
    words: usize,
    /// The last byte is a digit that stands alone, so that one more digit would share its codeword.
    lone_digit: bool,
}

// The codewords of a byte that stands alone in ASCII.
fn words_of_byte(byte: u8) -> usize
    ensures exact { result ≡ length (ascii_byte byte) }
    ensures few { result ≤ 2 }
{
    if byte < 128 { 1 } else { 2 }
}

impl AsciiCounter {
    // The counter of no bytes.
    fn start() -> AsciiCounter
        ensures { CountsAscii [] result }
    {
        AsciiCounter {
            words: 0,
            lone_digit: false,
        }
    }

    // The counter after one more byte.
    #[inline(always)]
    fn with(self, byte: u8) -> AsciiCounter
        requires { self.words ≤ 2 * (2 ^ 63 - 2) }
        ensures { (bytes : List ℕ) → CountsAscii bytes self
            → CountsAscii (bytes ++ byte ∷ []) result }
    {
        let is_digit = byte.is_ascii_digit();
        if self.lone_digit && is_digit {
            return AsciiCounter {
                words: self.words,
                lone_digit: false,
            };
        }
        AsciiCounter {
            words: self.words + words_of_byte(byte),
            lone_digit: is_digit,
        }
    }
}

/// The codewords of a text in C40 or Text.
#[derive(Clone, Copy)]
pub(crate) struct RunCounter {
    /// The number of values of all bytes.
    values: u128,
    /// The number of values of the run, the longest front whose values are whole triples.
    run: u128,
    /// The bytes after the run.
    after: AsciiCounter,
}

impl RunCounter {
    // The counter of no bytes.
    fn start() -> RunCounter
        ensures { (letters : Letters) → CountsRun letters [] result }
    {
        RunCounter {
            values: 0,
            run: 0,
            after: AsciiCounter::start(),
        }
    }

    // The counter after one more byte.
    #[inline(always)]
    fn with(self, letters: Letters, byte: u8) -> RunCounter
        requires { IsSmallRun (2 ^ 63 - 2) self }
        ensures { (bytes : List ℕ) → CountsRun letters bytes self
            → CountsRun letters (bytes ++ byte ∷ []) result }
    {
        let values = self.values + values_in(letters, byte) as u128;
        if values % 3 == 0 {
            return RunCounter {
                values,
                run: values,
                after: AsciiCounter::start(),
            };
        }
        RunCounter {
            values,
            run: self.run,
            after: self.after.with(byte),
        }
    }

    // The number of codewords that the bytes take.
    #[inline(always)]
    fn words(self) -> u128
        requires { IsSmallRun (2 ^ 63 - 1) self }
        ensures { result ≡ run_need self.run self.after.words }
    {
        if self.run == 0 {
            return self.after.words as u128;
        }
        let run = 1 + self.run / 3 * 2;
        if self.after.words == 0 {
            run
        } else {
            1 + run + self.after.words as u128
        }
    }
}

// The number of codewords that this many bytes take in Base 256.
fn base_256_words(count: u128) -> u128
    requires { count < 2 ^ 63 }
    ensures { result ≡ base_256_need count }
{
    match count {
        0 => 0,
        1..=249 => count + 2,
        _ => count + 3,
    }
}

/// The codewords of a text in a scheme.
#[derive(Clone, Copy)]
pub(crate) enum Counter {
    Ascii(AsciiCounter),
    Run(Letters, RunCounter),
    /// The number of bytes.
    Base256(u128),
}

impl Counter {
    /// The counter of no bytes.
    pub(crate) fn start(scheme: Scheme) -> Counter
        ensures { Counts scheme [] result }
    {
        match scheme {
            Scheme::Ascii => Counter::Ascii(AsciiCounter::start()),
            Scheme::C40 => Counter::Run(Letters::Capital, RunCounter::start()),
            Scheme::Text => Counter::Run(Letters::Small, RunCounter::start()),
            Scheme::Base256 => Counter::Base256(0),
        }
    }

    /// The counter after one more byte.
    #[inline(always)]
    pub(crate) fn with(self, byte: u8) -> Counter
        requires { IsSmall (2 ^ 63 - 2) self }
        ensures { (scheme : Scheme) (bytes : List ℕ) → Counts scheme bytes self
            → Counts scheme (bytes ++ byte ∷ []) result }
    {
        match self {
            Counter::Ascii(counter) => Counter::Ascii(counter.with(byte)),
            Counter::Run(letters, counter) => Counter::Run(letters, counter.with(letters, byte)),
            Counter::Base256(count) => Counter::Base256(count + 1),
        }
    }

    /// The number of codewords that the bytes take.
    #[inline(always)]
    pub(crate) fn words(self) -> u128
        requires { IsSmall (2 ^ 63 - 1) self }
        ensures { (scheme : Scheme) (bytes : List ℕ)
            → Counts scheme bytes self → result ≡ need_of scheme bytes }
    {
        match self {
            Counter::Ascii(counter) => counter.words as u128,
            Counter::Run(_, counter) => counter.words(),
            Counter::Base256(count) => base_256_words(count),
        }
    }
}
