//! Readers that remember whether a read has failed.

ghost use Rattle.std.specs.IoError.{error_kind};
ghost use Rattle.std.specs.Prelude.{◌≢◌, length, IfOk, IfErr, OnErr, ◌≡◌, ◌⊎◌, true, false, OnOk, IsErrOf};
ghost use Rattle.std.specs.Io.{ReadsAtMost};
ghost use Rattle.std.specs.Io.KnownBytes.{Keeps, ReadConsumes};
ghost use Rattle.relay_streams.specs.Streams.{Fills, GivesNext, TakesFewer, TakesFirst, TakesPart, InputView, ReadsFirst};

use crate::fault::{InputFault, ReadFault, interrupted_always};
use std::alloc::Allocator;
use std::io::{self, ErrorKind, Read};
use std::marker::Model;

/// A reader, and whether a read has failed.
#[derive(Drop)]
pub struct Input<R: Read> {
    reader: R,
    failed: bool,
}

impl<R: Read> Model for Input<R> {
    ghost Value = { InputView };

    ghost view = { λ input. record { remaining = R.remaining input.reader; has_failed = input.failed } };
}

// Reads some bytes, at least one where there is room for one and the input has not ended. A read that a signal
// interrupts is made again, so its error is never handed on.
fn read_some<R: Read>(reader: &mut R, buffer: &mut [u8]) -> io::Result<usize>
    ensures bound { ReadsAtMost result buffer.new }
    ensures bytes { ReadConsumes (R.remaining reader.old) (R.remaining reader.new) result buffer.new }
    ensures retried { IfErr result (λ error. error_kind error ≢ ErrorKind.Interrupted) }
{
    let mut tries = 0;
    while tries < u64::MAX {
        match reader.read(buffer) {
            Err(error) if error.kind() == ErrorKind::Interrupted => tries += 1,
            ended => return ended,
        }
    }
    Err(interrupted_always(tries))
}

// Reads some bytes, with this crate's fault.
fn read_piece<R: Read>(reader: &mut R, buffer: &mut [u8]) -> Result<usize, ReadFault>
    ensures bound { ReadsAtMost result buffer.new }
    ensures bytes { ReadConsumes (R.remaining reader.old) (R.remaining reader.new) result buffer.new }
{
    read_some(reader, buffer).or(Err(ReadFault::Read))
}

/// The next byte of any reader, or `None` at its end. A read that a signal interrupts is made again. Of a bare reader
/// no contract says that a read has failed: [`Input::next_byte`] says it.
///
/// # Errors
/// `Read` where the reader has failed.
pub fn next_byte_of<R: Read>(reader: &mut R) -> Result<Option<u8>, ReadFault>
    ensures given { IfOk result (GivesNext (R.remaining reader.old) (R.remaining reader.new)) }
    ensures none_taken { OnErr result (Keeps (R.remaining reader.old) (R.remaining reader.new)) }
{
    let mut one = [0u8; 1];
    if read_piece(reader, &mut one)? == 0 {
        return Ok(None);
    }
    Ok(Some(one[0]))
}

/// Fills the buffer from any reader, and gives the number of bytes that it got: fewer than there is room for only at
/// the end. It takes no byte for which there is no room. A read that a signal interrupts is made again. Of a bare
/// reader no contract says that a read has failed: [`Input::fill`] says it.
///
/// # Errors
/// `Read` where the reader has failed. The bytes that were taken until then are lost.
pub fn fill_from<R: Read>(reader: &mut R, buffer: &mut [u8]) -> Result<usize, ReadFault>
    ensures filled { IfOk result (Fills (R.remaining reader.old) (R.remaining reader.new) buffer.new) }
    ensures part { OnErr result (TakesFewer (R.remaining reader.old) (R.remaining reader.new) (length buffer.new)) }
{
    let mut filled = 0;
    while filled < buffer.len() {
        let count = read_piece(reader, &mut buffer[filled..])?;
        if count == 0 {
            return Ok(filled);
        }
        filled += count;
    }
    Ok(filled)
}

impl<R: Read> Input<R> {
    /// The reader, of which no read has failed.
    pub fn new(reader: R) -> Self
        ensures remaining { result.remaining ≡ R.remaining reader }
        ensures whole { result.has_failed ≡ false }
    {
        Input {
            reader,
            failed: false,
        }
    }

    /// Whether a read has failed.
    pub fn has_failed(&self) -> bool
        ensures { result ≡ self.now.has_failed }
    {
        self.failed
    }

    /// The reader, with the bytes that it has left.
    pub fn into_reader(self) -> R
        ensures { R.remaining result ≡ self.remaining }
    {
        let Input { reader, failed: _ } = self;
        reader
    }

    /// The next byte, or `None` at the end. A read that a signal interrupts is made again.
    ///
    /// # Errors
    /// `Read` where the reader failed; nothing was taken.
    pub fn next_byte(&mut self) -> Result<Option<u8>, ReadFault>
        ensures given { IfOk result (GivesNext self.old.remaining self.new.remaining) }
        ensures kept { OnOk result (self.new.has_failed ≡ self.old.has_failed) }
        ensures failed { OnErr result (self.new.has_failed ≡ true) }
        ensures none_taken { OnErr result (Keeps self.old.remaining self.new.remaining) }
    {
        let next = next_byte_of(&mut self.reader);
        if next.is_err() {
            self.failed = true;
        }
        next
    }

    /// Fills the buffer, and gives the number of bytes that it got: fewer than there is room for only at the end. It
    /// takes no byte for which there is no room. A read that a signal interrupts is made again.
    ///
    /// # Errors
    /// `Read` where the reader failed. The bytes that were taken until then are lost.
    pub fn fill(&mut self, buffer: &mut [u8]) -> Result<usize, ReadFault>
        ensures filled { IfOk result (Fills self.old.remaining self.new.remaining buffer.new) }
        ensures kept { OnOk result (self.new.has_failed ≡ self.old.has_failed) }
        ensures failed { OnErr result (self.new.has_failed ≡ true) }
        ensures part { OnErr result (TakesFewer self.old.remaining self.new.remaining (length buffer.new)) }
    {
        let filled = fill_from(&mut self.reader, buffer);
        if filled.is_err() {
            self.failed = true;
        }
        filled
    }

    /// The first `limit` bytes that are left, or all where they are fewer. Memory for `limit` bytes is asked for before
    /// anything is read. A read that a signal interrupts is made again.
    ///
    /// # Errors
    /// `Memory` where the allocator refuses; nothing was read. `Read` where the reader failed; the bytes that were
    /// taken until then are lost.
    pub fn read_up_to<A: Allocator>(
        &mut self,
        alloc: A,
        limit: usize,
    ) -> Result<Vec<u8, A>, InputFault>
        ensures read { IfOk result (λ bytes. ReadsFirst self.old self.new limit bytes.items) }
        ensures failed { IsErrOf result InputFault.Read → self.new.has_failed ≡ true }
        ensures unread { IsErrOf result InputFault.Memory → self.new ≡ self.old }
        ensures part { OnErr result (TakesPart self.old.remaining self.new.remaining limit) }
    {
        let mut bytes = Vec::new(alloc);
        bytes.resize(limit, 0)?;
        let count = self.fill(bytes.as_mut_slice())?;
        bytes.truncate(count);
        Ok(bytes)
    }
}
