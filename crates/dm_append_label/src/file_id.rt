//! File IDs.

ghost use Rattle.std.specs.Prelude.{ℕ, ◌<◌, ◌≡◌, [], ◌∷◌, IfSome, IsSome, ◌↔◌};
ghost use Rattle.dm_append_label.specs.Labels.{id_words, IsIdWord};

use std::marker::Model;

/// The ID that all labels of one document carry (ISO/IEC 16022:2006, 5.6.3): two codewords of 1 to 254, or,
/// as this project counts them, a number from 0 to 64,515. Ordered by number.
#[derive(Clone, Copy, Debug, PartialEq, Eq, PartialOrd, Ord, Hash)]
pub struct FileId {
    number: u16,
}

impl Model for FileId {
    ghost Value = { ℕ };

    ghost view = { λ id. id.number };

    ghost invariant = { λ id. id.number < 64516 };

    ghost inverse = { λ n. record { number = n } };
}

impl FileId {
    /// The ID of a number from 0 to 64,515.
    pub fn of_number(number: u16) -> Option<FileId>
        ensures some { IsSome result ↔ (number < 64516) }
        ensures same { IfSome result (λ id. id ≡ number) }
    {
        if number < 64_516 {
            Some(FileId { number })
        } else {
            None
        }
    }

    /// The ID of two codewords, each from 1 to 254.
    pub fn of_words(first: u8, second: u8) -> Option<FileId>
        ensures some { IsSome result ↔ (IsIdWord first × IsIdWord second) }
        ensures same { IfSome result (λ id. id_words id ≡ first ∷ second ∷ []) }
        ensures below { IfSome result (λ id. id < 64516) }
    {
        if first == 0 || first == 255 || second == 0 || second == 255 {
            return None;
        }
        let number = (first as u16 - 1) * 254 + (second as u16 - 1);
        Some(FileId { number })
    }

    /// Its number.
    pub fn number(self) -> u16
        ensures same { result ≡ self }
        ensures below { result < 64516 }
    {
        self.number
    }

    /// Its two codewords, in the order in which a label has them.
    pub fn words(self) -> (u8, u8)
        ensures same { result.0 ∷ result.1 ∷ [] ≡ id_words self }
        ensures below { self < 64516 }
    {
        ((self.number / 254 + 1) as u8, (self.number % 254 + 1) as u8)
    }
}
