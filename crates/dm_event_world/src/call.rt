//! Calls under a stop: what their next save is to do, and where they end.

ghost use Rattle.std.specs.Prelude.{◌≡◌};
ghost use Rattle.dm_event_world.specs.inner.Calls.{lacks_memory, ends_early, most_labels, next_save_of, stops_before};

use dm_assembly_desk::{ForgetFault, ImportFault, ScanFault};
use dm_event_history::{Kept, Reply, Stop};
use dm_print_ledger::{GiveFault, PrintFault, TakeFault};
use dm_store::NextSave;
use std::alloc::Allocator;

/// What the next save is to do under a stop.
pub(crate) fn next_save(stop: Stop) -> NextSave
    ensures { result ≡ next_save_of stop }
{
    match stop {
        Stop::SaveFault(Kept::Old) => NextSave::FaultOld,
        Stop::SaveFault(Kept::New) => NextSave::FaultNew,
        Stop::None | Stop::BeforeSave | Stop::InSave(_) | Stop::AfterLabels(_) => NextSave::Fine,
    }
}

/// Whether a stop ends a call before the new content is held, so that the store is as if the call were not made.
pub(crate) fn is_stopped_before(stop: Stop) -> bool
    ensures { result ≡ stops_before stop }
{
    match stop {
        Stop::BeforeSave | Stop::InSave(Kept::Old) => true,
        Stop::None | Stop::InSave(Kept::New) | Stop::SaveFault(_) | Stop::AfterLabels(_) => false,
    }
}

/// Whether a call under a stop is to end before its reply.
pub(crate) fn is_stopping(stop: Stop) -> bool
    ensures { result ≡ ends_early stop }
{
    match stop {
        Stop::BeforeSave | Stop::InSave(_) | Stop::AfterLabels(_) => true,
        Stop::None | Stop::SaveFault(_) => false,
    }
}

/// At most how many labels leave by a print that is made.
pub(crate) fn most_labels(stop: Stop) -> u8
    ensures { result ≡ most_labels stop }
{
    match stop {
        Stop::AfterLabels(most) => most,
        Stop::InSave(_) => 0,
        Stop::BeforeSave | Stop::None | Stop::SaveFault(_) => u8::MAX,
    }
}

/// Whether a reply tells that the call's own memory was refused.
pub(crate) fn lacks_memory<A: Allocator + Copy>(reply: &Reply<A>) -> bool
    ensures { result ≡ lacks_memory reply.now }
{
    match reply {
        Reply::PrintRefused(PrintFault::Memory)
        | Reply::GiveRefused(GiveFault::Memory)
        | Reply::TakeRefused(TakeFault::Memory)
        | Reply::ScanRefused(ScanFault::Memory)
        | Reply::ForgetRefused(ForgetFault::Memory)
        | Reply::ImportRefused(ImportFault::Memory) => true,
        _ => false,
    }
}
