//! The encodations that `encode` writes.

/// The encodation of a whole text (ISO/IEC 16022:2006, 5.2). How far a run of C40 or Text goes is
/// this project's own rule: as far as whole characters make whole pairs of codewords; ASCII follows.
#[derive(Clone, Copy, Debug, PartialEq, Eq)]
pub enum Scheme {
    /// A digit pair or a byte below 128 is one codeword, any other byte two.
    Ascii,
    /// Three capital letters, digits or spaces are two codewords.
    C40,
    /// Three small letters, digits or spaces are two codewords.
    Text,
    /// A latch, one or two codewords of length, and each byte as one codeword, at most 1,555 of them.
    Base256,
}
