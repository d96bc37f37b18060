//! The codewords of a text in ASCII encodation.

ghost use Rattle.std.specs.Prelude.{◌≡◌, ◌<◌, ◌++◌, [], length, MatchOption, IfSome, OnOk};
ghost use Rattle.dm_encodation.specs.inner.Counting.{piece_words, has_digits, IsPiece};
ghost use Rattle.dm_encodation.specs.Written.{ascii};

use std::alloc::{AllocError, Allocator};

// What stands at the front of a text: two digits, by their number, a byte below 128, or another
// byte.
#[derive(Clone, Copy)]
enum Piece {
    Digits(u8),
    Character(u8),
    Upper(u8),
}

// Whether a text begins with two digits.
fn begins_with_digits(bytes: &[u8]) -> bool
    ensures { result ≡ has_digits bytes.now }
{
    bytes.len() >= 2 && bytes[0].is_ascii_digit() && bytes[1].is_ascii_digit()
}

// The piece at the front of a text, and the bytes after it.
fn first_piece(bytes: &[u8]) -> Option<(Piece, &[u8])>
    ensures words { MatchOption result (bytes.now ≡ [])
        (λ r. ascii bytes.now ≡ piece_words r.0 ++ ascii r.1.now) }
    ensures shorter { IfSome result (λ r. length r.1.now < length bytes.now) }
    ensures piece { IfSome result (λ r. IsPiece r.0) }
{
    if bytes.is_empty() {
        return None;
    }
    if begins_with_digits(bytes) {
        let number = 10 * (bytes[0] - b'0') + (bytes[1] - b'0');
        return Some((Piece::Digits(number), &bytes[2..]));
    }
    if bytes[0] < 128 {
        Some((Piece::Character(bytes[0]), &bytes[1..]))
    } else {
        Some((Piece::Upper(bytes[0]), &bytes[1..]))
    }
}

// Writes the codewords of a piece.
fn push_piece<A: Allocator>(out: &mut Vec<u8, A>, piece: Piece) -> Result<(), AllocError>
    requires { IsPiece piece }
    ensures { OnOk result (out.new.items ≡ out.old.items ++ piece_words piece) }
{
    match piece {
        Piece::Digits(number) => out.push(130 + number)?,
        Piece::Character(byte) => out.push(byte + 1)?,
        Piece::Upper(byte) => {
            out.push(235)?;
            out.push(byte - 127)?;
        }
    }
    Ok(())
}

/// Writes the codewords of a text after what was written before.
pub(crate) fn push_ascii<A: Allocator>(out: &mut Vec<u8, A>, bytes: &[u8]) -> Result<(), AllocError>
    ensures { OnOk result (out.new.items ≡ out.old.items ++ ascii bytes.now) }
{
    let mut rest = bytes;
    while let Some((piece, after)) = first_piece(rest) {
        push_piece(out, piece)?;
        rest = after;
    }
    Ok(())
}
