//! What each kind of word of a script stands for, and why a script is not taken.

ghost use Rattle.std.specs.Prelude.{◌≡◌, ◌⊎◌, ◌↔◌, ◌<◌, length, ℕ, List, Ok, IsTrue, MatchOption};
ghost use Rattle.hex.specs.Hex.{decode_of};
ghost use Rattle.relay_script.specs.Words.{AreBytesOf, AreFlipsOf, IsFlipOf, FitsWhereFound, IsIdOf, IsScriptNumber, IsNumberOf, IsRead, IsSideOf, IsStopOf, script_fault_name};
ghost use Rattle.relay_script.specs.declared.words.ScriptFault.TheVariants.{Memory};

use crate::spelled::{Spelled, read_all};
use dm_append_label::FileId;
use dm_event_history::{Bytes, Flips, Kept, Stop};
use dm_print_ledger::Range;
use dm_size::Size;
use std::alloc::{AllocError, Allocator};

/// Why a script is not taken.
#[derive(Clone, Copy)]
pub enum ScriptFault {
    /// A line has none of a script's forms, or comes at a wrong place, or there are too many.
    Script,
    Memory,
}

impl From<AllocError> for ScriptFault {
    ghost from_gives = { λ _ fault. fault ≡ Memory };

    fn from(_error: AllocError) -> ScriptFault {
        ScriptFault::Memory
    }
}

impl ScriptFault {
    /// The variant's name.
    pub fn name(self) -> &'static str
        ensures { result.now ≡ script_fault_name self }
    {
        match self {
            ScriptFault::Script => "Script",
            ScriptFault::Memory => "Memory",
        }
    }
}

pub(crate) fn number(word: &str) -> Option<u16>
    ensures { MatchOption result (¬ IsScriptNumber word.now) (IsNumberOf word.now) }
{
    if word.len() > 5 || word.starts_with('+') {
        return None;
    }
    word.parse().ok()
}

// The range of two words, its first number and its last.
pub(crate) fn range(first: &str, last: &str) -> Option<Range>
    ensures { MatchOption result ((¬ IsScriptNumber first.now) ⊎ (¬ IsScriptNumber last.now))
        (λ range. IsNumberOf first.now range.first × IsNumberOf last.now range.last) }
{
    match (number(first), number(last)) {
        (Some(first), Some(last)) => Some(Range { first, last }),
        _ => None,
    }
}

#[tactic(auto, unfolding(crate::specs::Words::IsSideOf))]
pub(crate) fn size(word: &str) -> Option<Size>
    ensures { FitsWhereFound result (IsSideOf word.now) }
{
    Size::of_side(number(word)?)
}

#[tactic(auto, unfolding(crate::specs::Words::IsIdOf))]
pub(crate) fn id(word: &str) -> Option<FileId>
    ensures { FitsWhereFound result (IsIdOf word.now) }
{
    let mut words = [0u8; 2];
    hex::decode_to_slice(word, &mut words).ok()?;
    FileId::of_words(words[0], words[1])
}

#[tactic(auto, using(crate::proofs::Refused::none_named), unfolding(crate::specs::Words::IsStopOf))]
pub(crate) fn stop(word: &str) -> Option<Stop>
    ensures { FitsWhereFound result (IsStopOf word.now) }
{
    match word {
        "-" => Some(Stop::None),
        "before" => Some(Stop::BeforeSave),
        "in-old" => Some(Stop::InSave(Kept::Old)),
        "in-new" => Some(Stop::InSave(Kept::New)),
        "fault-old" => Some(Stop::SaveFault(Kept::Old)),
        "fault-new" => Some(Stop::SaveFault(Kept::New)),
        _ => after_labels(word),
    }
}

#[tactic(auto, unfolding(crate::specs::Words::IsStopOf))]
fn after_labels(word: &str) -> Option<Stop>
    ensures { MatchOption result ((most : ℕ) → ¬ IsStopOf word.now (Stop.AfterLabels most)) (IsStopOf word.now) }
{
    let digits = word.strip_prefix("after:")?;
    let most = u8::try_from(number(digits)?).ok()?;
    Some(Stop::AfterLabels(most))
}

// Whether the word is bytes in hexadecimal, one or more.
fn is_hexadecimal(word: &str) -> bool
    ensures { IsTrue result ↔ ((0 < length word.now) × (bytes : List ℕ) × (decode_of word.now ≡ Ok bytes)) }
{
    !word.is_empty() && word.len() % 2 == 0 && word.bytes().all(|digit| digit.is_ascii_hexdigit())
}

#[tactic(auto, unfolding(crate::specs::Words::AreBytesOf))]
pub(crate) fn bytes<A: Allocator>(alloc: A, word: &str) -> Result<Bytes<A>, ScriptFault>
    ensures { IsRead result (AreBytesOf word.now) }
{
    if word == "-" {
        return Ok(Bytes(Vec::new(alloc)));
    }
    if !is_hexadecimal(word) {
        return Err(ScriptFault::Script);
    }
    match hex::decode(alloc, word) {
        Ok(bytes) => Ok(Bytes(bytes)),
        Err(_) => Err(ScriptFault::Memory),
    }
}

impl<A: Allocator + Copy> Spelled<A> for (u16, u16) {
    ghost spells = { IsFlipOf };

    #[tactic(auto, using(std::proofs::lemmas::Str::Pattern::split_once_first))]
    fn read(_alloc: A, word: &str) -> Result<(u16, u16), ScriptFault> {
        let (row, column) = word.split_once(',').ok_or(ScriptFault::Script)?;
        let (Some(row), Some(column)) = (number(row), number(column)) else {
            return Err(ScriptFault::Script);
        };
        Ok((row, column))
    }
}

#[tactic(auto, unfolding(crate::specs::Words::AreFlipsOf))]
pub(crate) fn flips<A: Allocator + Copy>(alloc: A, word: &str) -> Result<Flips<A>, ScriptFault>
    ensures { IsRead result (AreFlipsOf word.now) }
{
    if word == "-" {
        return Ok(Flips(Vec::new(alloc)));
    }
    Ok(Flips(read_all(alloc, word.split(';'))?))
}
