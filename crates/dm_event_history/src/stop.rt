//! What is to happen to calls.

use dm_store::Kept;

/// What is to happen to a call. A call that never reaches a save takes no notice of `SaveFault`, and every
/// other stop ends it where it would end; but one whose memory is refused before that is not stopped.
#[derive(Clone, Copy, Debug, PartialEq, Eq)]
pub enum Stop {
    /// Nothing: the call answers.
    None,
    /// The call ends before its save.
    BeforeSave,
    /// The call ends inside its save, and the store holds the old or the new content.
    InSave(Kept),
    /// The call goes on, but its save meets a device fault and leaves the old or the new content.
    SaveFault(Kept),
    /// The call ends after its save: a print when this many labels have left, or all if there are fewer, a give before
    /// its ticket, and any other call before its reply.
    AfterLabels(u8),
}
