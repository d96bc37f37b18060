//! Parts of a script's text, and what each stands for.

ghost use Rattle.std.specs.Prelude.{◌≡◌, ◌<◌, length, List, ℕ, MatchOption};
ghost use Rattle.std.specs.Iterator.{AlwaysYields, IsFinite};
ghost use Rattle.std.specs.List.{AllZip};
ghost use Rattle.relay_script.specs.Words.{cut_at, texts, IsRead, IsReadBy};

use crate::words::ScriptFault;
use arrayvec::ArrayVec;
use std::alloc::{AllocError, Allocator};

/// What a text of one kind stands for.
pub(crate) trait Spelled<A: Allocator + Copy>: Sized + Drop {
    ghost spells: { List ℕ → Self → Type 0 };

    /// Reads a text.
    fn read(alloc: A, text: &str) -> Result<Self, ScriptFault>
        ensures { IsRead result (spells text.now) };
}

/// Reads texts, one after another, and goes on where memory was refused: a later one may be to blame.
pub(crate) fn read_all<'a, T: Spelled<A>, A: Allocator + Copy, I: Iterator<Item = &'a str> + Drop>(
    alloc: A,
    parts: I,
) -> Result<Vec<T, A>, ScriptFault>
    requires can { I.can_next parts }
    requires ends { IsFinite (I.remaining parts) }
    ensures { (all : List (List ℕ)) → AlwaysYields I.next_gives (λ part. part.now) parts all
        → IsReadBy (λ items. items.items) result (AllZip T.spells all) }
{
    let mut items = Vec::new(alloc);
    let mut refused = false;
    for part in parts {
        match T::read(alloc, part) {
            Ok(item) => refused |= items.push(item).map_err(AllocError::from).is_err(),
            Err(ScriptFault::Memory) => refused = true,
            Err(ScriptFault::Script) => return Err(ScriptFault::Script),
        }
    }
    if refused {
        return Err(ScriptFault::Memory);
    }
    Ok(items)
}

/// The words of a line, with a space between two, unless there are more than the six of the longest form.
pub(crate) fn words(line: &str) -> Option<ArrayVec<&str, 6>>
    ensures { MatchOption result (6 < length (cut_at 32 line.now))
        (λ words. texts words.items ≡ cut_at 32 line.now) }
{
    let mut words = ArrayVec::new();
    for word in line.split(' ') {
        if words.is_full() {
            return None;
        }
        words.push(word);
    }
    Some(words)
}
