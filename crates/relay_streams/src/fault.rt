//! What a reader or a writer refuses.

ghost use Rattle.std.specs.Prelude.{◌≡◌, ◌≢◌, ◌≤◌, ◌+◌, ◌^◌};
ghost use Rattle.std.specs.IoError.{error_kind};
ghost use Rattle.relay_streams.specs.Streams.{read_fault_name, input_fault_name, write_fault_name};
ghost use Rattle.relay_streams.specs.declared.fault.InputFault.TheVariants as input_faults;

use std::alloc::AllocError;
use std::io::{self, ErrorKind};
use thiserror::Error;

/// Why no byte was read.
#[derive(Clone, Copy, Debug, PartialEq, Eq, Error)]
pub enum ReadFault {
    /// The reader failed.
    #[error("the input could not be read")]
    Read,
}

impl ReadFault {
    /// The fault's own name.
    pub fn name(self) -> &'static str
        ensures { result.now ≡ read_fault_name self }
    {
        match self {
            ReadFault::Read => "Read",
        }
    }
}

/// Why the first bytes of an input were not read.
#[derive(Clone, Copy, Debug, PartialEq, Eq, Error)]
pub enum InputFault {
    /// The reader failed.
    #[error("the input could not be read")]
    Read,
    /// The allocator refused memory for the bytes.
    #[error("out of memory")]
    Memory,
}

impl InputFault {
    /// The fault's own name.
    pub fn name(self) -> &'static str
        ensures { result.now ≡ input_fault_name self }
    {
        match self {
            InputFault::Read => "Read",
            InputFault::Memory => "Memory",
        }
    }
}

impl From<ReadFault> for InputFault {
    ghost from_gives = { λ _ fault. fault ≡ input_faults.Read };

    fn from(_: ReadFault) -> Self {
        InputFault::Read
    }
}

impl From<AllocError> for InputFault {
    ghost from_gives = { λ _ fault. fault ≡ input_faults.Memory };

    fn from(_: AllocError) -> Self {
        InputFault::Memory
    }
}

/// Why bytes were not written.
#[derive(Clone, Copy, Debug, PartialEq, Eq, Error)]
pub enum WriteFault {
    /// The writer failed.
    #[error("the output could not be written")]
    Write,
}

impl WriteFault {
    /// The fault's own name.
    pub fn name(self) -> &'static str
        ensures { result.now ≡ write_fault_name self }
    {
        match self {
            WriteFault::Write => "Write",
        }
    }
}

// What a call fails with that signals have interrupted so many times. It is given up after no fewer.
pub(crate) fn interrupted_always(_tries: u64) -> io::Error
    requires { 2 ^ 64 ≤ _tries + 1 }
    ensures { error_kind result ≢ ErrorKind.Interrupted }
{
    io::Error::from(ErrorKind::TimedOut)
}
