//! The header of an image.

ghost use Rattle.std.specs.Prelude.{◌≡◌, ◌≤◌, ℕ, min, IsTrue, IfSome, List, MatchResult};
ghost use Rattle.std.specs.Char.{is_ascii_digit};
ghost use Rattle.dm_pbm_io.specs.Header.{is_white, is_hidden, IsHeaderBody, StopsInHeader};
ghost use Rattle.dm_pbm_io.specs.inner.Streaming.{next_state, with_digit, HasNumber, TakesBytes, TakesUntil};

use crate::fault::PbmFault;
use crate::limits::HEADER_BYTES;
use crate::source::{ByteSource, next_byte};

// What every width and height above the greatest is read as.
const ABOVE_SIDES: u16 = 1025;

/// How far the reader is in the text after the magic number; with the numbers that it has read.
#[derive(Clone, Copy, Debug, PartialEq, Eq)]
pub(crate) enum HeaderState {
    AfterMagic,
    BeforeWidth,
    InWidth(u16),
    BeforeHeight(u16),
    InHeight(u16, u16),
    Done(u16, u16),
}

/// The bytes 9 to 13, and 32.
pub(crate) fn is_white(byte: u8) -> bool
    ensures { result ≡ is_white byte }
{
    matches!(byte, 9..=13 | 32)
}

/// Whether a comment hides the byte, which comes inside of one or outside.
pub(crate) fn is_hidden(inside: bool, byte: u8) -> bool
    ensures { result ≡ is_hidden inside byte }
{
    if inside {
        !matches!(byte, b'\n' | b'\r')
    } else {
        byte == b'#'
    }
}

// The number with one more digit. Above the greatest side it stays.
fn with_digit(number: u16, digit: u8) -> u16
    requires number { number ≤ 1025 }
    requires digit { IsTrue (is_ascii_digit digit) }
    ensures { result ≡ with_digit number digit }
{
    (10 * number + u16::from(digit - b'0')).min(ABOVE_SIDES)
}

impl HeaderState {
    /// The state after one more sign, or `None` where no header has that sign.
    pub(crate) fn next(self, sign: u8) -> Option<HeaderState>
        requires { HasNumber self }
        ensures next { result ≡ next_state self sign }
        ensures number { IfSome result HasNumber }
    {
        let white = is_white(sign);
        let digit = sign.is_ascii_digit();
        match self {
            HeaderState::AfterMagic if white => Some(HeaderState::BeforeWidth),
            HeaderState::BeforeWidth if white => Some(self),
            HeaderState::BeforeWidth if digit => Some(HeaderState::InWidth(with_digit(0, sign))),
            HeaderState::InWidth(n) if digit => Some(HeaderState::InWidth(with_digit(n, sign))),
            HeaderState::InWidth(n) if white && n != 0 => Some(HeaderState::BeforeHeight(n)),
            HeaderState::BeforeHeight(_) if white => Some(self),
            HeaderState::BeforeHeight(w) if digit => Some(HeaderState::InHeight(
                w,
                with_digit(0, sign),
            )),
            HeaderState::InHeight(w, n) if digit => Some(HeaderState::InHeight(
                w,
                with_digit(n, sign),
            )),
            HeaderState::InHeight(w, n) if white && n != 0 => Some(HeaderState::Done(w, n)),
            _ => None,
        }
    }
}

/// The width and the height that the header gives after its magic number. What is above 1,025 is 1,025.
pub(crate) fn read_size<M, S: ByteSource<M>>(source: &mut S) -> Result<(u16, u16), PbmFault>
    ensures { MatchResult result
        (λ size. (body : List ℕ) × (width : ℕ) × (height : ℕ) × TakesBytes (S.view source.old) (S.view source.new) body
        × IsHeaderBody body width height × (size.0 ≡ min width 1025) × (size.1 ≡ min height 1025))
        (λ fault. (body : List ℕ)
        × TakesUntil (S.view source.old) (S.view source.new) body fault
        × StopsInHeader body (S.view source.new).remaining fault) }
{
    let mut state = HeaderState::AfterMagic;
    let mut inside = false;
    for count in 2..HEADER_BYTES {
        let byte = next_byte(source)?;
        inside = is_hidden(inside, byte);
        if !inside {
            state = match state.next(byte) {
                None => return Err(PbmFault::Header),
                Some(next) => next,
            };
            if let HeaderState::Done(width, height) = state {
                return Ok((width, height));
            }
        }
    }
    Err(PbmFault::Header)
}
