//! What the calls answer.

ghost use Rattle.std.specs.Prelude.{◌≡◌, Ok, Err, MatchResult};
ghost use Rattle.relay_symbols.specs.Symbols.{AnswersCode, code_of};
ghost use Rattle.relay_symbols.specs.declared.refusal.Refusal.TheVariants.{NoMemory};

use std::alloc::{AllocError, Allocator};

/// Why a call refuses: the first of those that it names, in this order, that applies. Memory alone may be refused in
/// place of any.
#[derive(Clone, Copy)]
pub(crate) enum Refusal {
    /// No symbol has this side.
    NoSide = -1,
    /// The codewords are not as many as the symbol has.
    WordCount = -2,
    /// There is no such page, or no such ID.
    NoPage = -3,
    /// The text does not fit.
    TooLong = -4,
    /// The bytes do not begin with the image of a symbol.
    NoSymbol = -5,
    /// More modules of the finder patterns, or more codewords of a block, are wrong than may be.
    TooManyWrong = -6,
    /// The symbol has no head of a label.
    NoLabel = -7,
    /// The codewords are no text.
    NoText = -8,
    /// The caller's bytes have no room.
    NoRoom = -9,
    /// Memory was refused.
    NoMemory = -10,
}

impl Refusal {
    // Its number.
    fn code(self) -> isize
        ensures { result ≡ code_of self }
    {
        self as isize
    }
}

impl From<AllocError> for Refusal {
    ghost from_gives = { λ _ refusal. refusal ≡ NoMemory };

    fn from(_: AllocError) -> Self {
        Refusal::NoMemory
    }
}

/// Puts the bytes that were found at the front of the caller's, and answers how many they are; or answers why not, and
/// leaves the caller's as they were.
pub(crate) fn answer<A: Allocator>(found: Result<Vec<u8, A>, Refusal>, out: &mut [u8]) -> isize
    ensures { AnswersCode
        (λ it. MatchResult found (λ bytes. it ≡ Ok bytes.items) (λ refusal. it ≡ Err refusal)) out.old out.new result }
{
    let bytes = match found {
        Ok(bytes) => bytes,
        Err(refusal) => return refusal.code(),
    };
    let count = bytes.len();
    if count > out.len() {
        return Refusal::NoRoom.code();
    }
    out[..count].copy_from_slice(&bytes);
    count as isize
}
