//! What a command has: its streams, the document on its input, what it refuses itself, and how it ends.

ghost use Rattle.std.specs.Prelude.{◌≡◌, false, true, IfOk, IsErrOf, MatchResult};
ghost use Rattle.relay_shared.specs.Command.{ReadsDocument, refusal_name, TellsRefusal, StreamsView};
ghost use Rattle.relay_streams.specs.Streams.{TakesPart, write_fault_name};
ghost use Rattle.relay_streams.specs.declared.fault.InputFault.TheVariants as input_faults;
ghost use Rattle.relay_shared.specs.declared.command.Refusal.TheVariants as refusals;

use dm_store::{Store, StoreSet};
use relay_streams::{Input, InputFault, Output, WriteFault};
use std::alloc::{AllocError, Allocator};
use std::io::{Read, Write};
use std::marker::Model;

/// What a command reads from, what it writes to, and the standard error. A command that writes bytes for another
/// program writes its refusals to the standard error, and any other to its output.
#[derive(Drop)]
pub struct Streams<R: Read, W: Write, E: Write> {
    pub input: Input<R>,
    pub output: Output<W>,
    /// What it writes for the person who gave the command, if the output is for a program.
    pub errors: Output<E>,
}

impl<R: Read, W: Write, E: Write> Model for Streams<R, W, E> {
    ghost Value = { StreamsView };

    ghost view = { λ streams. record { input = streams.input; output = streams.output; errors = streams.errors } };
}

impl<R: Read, W: Write, E: Write> Streams<R, W, E> {
    /// Streams over these readers and writers, of which none has failed.
    pub fn new(reader: R, writer: W, errors: E) -> Self
        ensures input { result.input ≡ record { remaining = R.remaining reader; has_failed = false } }
        ensures output { result.output ≡ record { contents = W.contents writer; has_failed = false } }
        ensures errors { result.errors ≡ record { contents = E.contents errors; has_failed = false } }
    {
        Streams {
            input: Input::new(reader),
            output: Output::new(writer),
            errors: Output::new(errors),
        }
    }
}

/// One byte more than the greatest document: 16 labels of side 132, each of 2,600 digits.
pub const DOCUMENT_BYTES: usize = 41_601;

/// Reads a document, at most `DOCUMENT_BYTES` of it. Where memory is refused, nothing was read.
pub fn read_document<A: Allocator, R: Read>(
    alloc: A,
    input: &mut Input<R>,
) -> Result<Vec<u8, A>, InputFault>
    ensures taken { IfOk result (λ document. ReadsDocument input.old input.new document.items) }
    ensures part { TakesPart input.old.remaining input.new.remaining DOCUMENT_BYTES }
    ensures failed { IsErrOf result input_faults.Read → input.new.has_failed ≡ true }
    ensures unread { IsErrOf result input_faults.Memory → input.new ≡ input.old }
{
    input.read_up_to(alloc, DOCUMENT_BYTES)
}

/// Why a command was not done, or not all of it.
#[derive(Clone, Copy)]
pub enum Refusal {
    /// The side isn't one of the 23 symbol sizes.
    Side,
    /// The text is no ID.
    FileId,
    /// The text is no ticket.
    Ticket,
    /// The input has more images than a command reads.
    TooMany,
    /// Memory was refused.
    Memory,
    /// The output has refused a write.
    Output(WriteFault),
}

impl Refusal {
    /// Its own name, or that of the write.
    pub fn name(self) -> &'static str
        ensures { result.now ≡ refusal_name self }
    {
        match self {
            Refusal::Side => "Side",
            Refusal::FileId => "FileId",
            Refusal::Ticket => "Ticket",
            Refusal::TooMany => "TooMany",
            Refusal::Memory => "Memory",
            Refusal::Output(fault) => fault.name(),
        }
    }
}

impl From<AllocError> for Refusal {
    ghost from_gives = { λ _ refusal. refusal ≡ refusals.Memory };

    fn from(_: AllocError) -> Self {
        Refusal::Memory
    }
}

impl From<WriteFault> for Refusal {
    ghost from_gives = { λ fault refusal. refusal ≡ refusals.Output fault };

    fn from(fault: WriteFault) -> Self {
        Refusal::Output(fault)
    }
}

/// The exit status of a command, and the store as the command leaves it.
#[derive(Drop)]
pub struct Ended<S: Store> {
    /// 0 where the command was done, and else 1.
    pub status: u8,
    /// The store of the ledger.
    pub store: S,
}

/// The exit status of a command, and the stores of a desk's files as the command leaves them.
#[derive(Drop)]
pub struct EndedDesk<S: Store, T: StoreSet> {
    /// 0 where the command was done, and else 1.
    pub status: u8,
    /// The store of the joint file.
    pub store: S,
    /// The set of the files of documents.
    pub set: T,
}

/// The exit status after the line of what was done: 1 where the output has refused it.
pub fn status_after(put: Result<(), WriteFault>) -> u8
    ensures { MatchResult put (λ _. result ≡ 0) (λ _. result ≡ 1) }
{
    u8::from(put.is_err())
}

/// Writes the line of a refusal, and gives the exit status.
pub fn refuse<W: Write>(output: &mut Output<W>, name: &str) -> u8
    ensures { TellsRefusal name.now output.old result output.new }
{
    let _ = output.put_refusal(name);
    1
}

/// The exit status after bytes for another program. Where the output has refused them, the standard error gets a line.
pub fn status_after_bytes<E: Write>(errors: &mut Output<E>, put: Result<(), WriteFault>) -> u8
    ensures { MatchResult put
        (λ _. (result ≡ 0) × (errors.new ≡ errors.old))
        (λ fault. TellsRefusal (write_fault_name fault) errors.old result errors.new) }
{
    match put {
        Ok(()) => 0,
        Err(fault) => refuse(errors, fault.name()),
    }
}
