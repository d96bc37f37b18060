//! Heads of labels, written and read.

ghost use Rattle.std.specs.Prelude.{◌≡◌, ◌≤◌, ◌<◌, length, IfOk};
ghost use Rattle.dm_append_label.specs.Labels.{IsHead, head_at, head_from, head_words};
ghost use Rattle.dm_append_label.specs.inner.ReadHeads.{ReadsHead, view_of};

use crate::fault::LabelFault;
use crate::file_id::FileId;

/// The codewords of a head.
pub(crate) const HEAD_WORDS: usize = 4;

// The codeword of Structured Append, the first of a head.
const APPENDED: u8 = 233;

/// What a head says: label m of n of the document of an ID.
#[derive(Clone, Copy, Debug, PartialEq, Eq)]
pub(crate) struct Head {
    pub m: u8,
    pub n: u8,
    pub id: FileId,
}

/// The four codewords of a head.
pub(crate) fn words_of_head(head: Head) -> [u8; HEAD_WORDS]
    requires least { 2 ≤ head.n }
    requires most { head.n ≤ 16 }
    requires first { 1 ≤ head.m }
    requires last { head.m ≤ head.n }
    ensures words { result ≡ head_words (view_of head) }
    ensures fits { IsHead (view_of head) }
{
    let (first, second) = head.id.words();
    [APPENDED, 16 * (head.m - 1) + (17 - head.n), first, second]
}

// The head that a sequence indicator and the codewords of an ID spell.
fn head_of_words(indicator: u8, first: u8, second: u8) -> Result<Head, LabelFault>
    ensures { ReadsHead (head_from indicator first second) result }
{
    let (m, n) = (indicator / 16 + 1, 17 - indicator % 16);
    if n > 16 || m > n {
        return Err(LabelFault::Sequence { word: indicator });
    }
    let Some(id) = FileId::of_words(first, second) else {
        return Err(LabelFault::FileId);
    };
    Ok(Head { m, n, id })
}

/// The head that data codewords begin with, or its first fault.
#[tactic(auto, unfolding(crate::specs::Labels::head_at))]
pub(crate) fn read_head(words: &[u8]) -> Result<Head, LabelFault>
    ensures head { ReadsHead (head_at words.now) result }
    ensures long { IfOk result (λ _. 4 ≤ length words.now) }
{
    match words {
        [APPENDED, indicator, first, second, ..] => head_of_words(*indicator, *first, *second),
        _ => Err(LabelFault::NotAppended),
    }
}
