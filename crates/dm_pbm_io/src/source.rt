//! Where the bytes of an image come from: a reader that remembers whether it has failed, any reader, or memory.

ghost use Rattle.std.specs.Prelude.{◌≡◌, ◌<◌, List, ℕ, [], ◌∷◌, true, false, Some, length, IfOk, OnErr, MatchResult};
ghost use Rattle.std.specs.Io.KnownBytes.{Keeps};
ghost use Rattle.relay_streams.specs.Streams.{InputView, TakesFewer};
ghost use Rattle.dm_pbm_io.specs.Header.{HasNoByte};
ghost use Rattle.dm_pbm_io.specs.inner.Streaming.{TakesBytes, TakesFront, TakesNext, TakesUntil};

use crate::fault::PbmFault;
use relay_streams::{Input, ReadFault, fill_from, next_byte_of};
use std::io::Read;

/// Marks the source that remembers whether a read has failed.
pub(crate) struct Remembering;

/// Marks a bare reader. It counts as failed from the start, so that nothing is claimed of its failures.
pub(crate) struct Bare;

/// Marks bytes in memory, of which no read fails.
pub(crate) struct InMemory;

/// A source of bytes. The mark `M` keeps the impls apart.
pub(crate) trait ByteSource<M> {
    ghost view: { Self → InputView };

    /// The next byte, or `None` at the end.
    fn next(&mut self) -> Result<Option<u8>, ReadFault>
        ensures taken { IfOk result (TakesNext (view self.old) (view self.new)) }
        ensures failed { OnErr result ((view self.new).has_failed ≡ true) }
        ensures none_taken { OnErr result (Keeps (view self.old).remaining (view self.new).remaining) };

    /// Fills the buffer, and gives the number of bytes that it got: fewer than there is room for only at the end.
    fn fill_buffer(&mut self, buffer: &mut [u8]) -> Result<usize, ReadFault>
        ensures taken { IfOk result (TakesFront (view self.old) (view self.new) buffer.new) }
        ensures failed { OnErr result ((view self.new).has_failed ≡ true) }
        ensures part { OnErr result
            (TakesFewer (view self.old).remaining (view self.new).remaining (length buffer.new)) };
}

impl<R: Read> ByteSource<Remembering> for Input<R> {
    ghost view = { λ input. input };

    fn next(&mut self) -> Result<Option<u8>, ReadFault> {
        self.next_byte()
    }

    fn fill_buffer(&mut self, buffer: &mut [u8]) -> Result<usize, ReadFault> {
        self.fill(buffer)
    }
}

impl<R: Read> ByteSource<Bare> for R {
    ghost view = { λ reader. record { remaining = R.remaining reader; has_failed = true } };

    fn next(&mut self) -> Result<Option<u8>, ReadFault> {
        next_byte_of(self)
    }

    fn fill_buffer(&mut self, buffer: &mut [u8]) -> Result<usize, ReadFault> {
        fill_from(self, buffer)
    }
}

impl ByteSource<InMemory> for &[u8] {
    ghost view = { λ bytes. record { remaining = Some bytes.now; has_failed = false } };

    #[inline(always)]
    fn next(&mut self) -> Result<Option<u8>, ReadFault> {
        let bytes: &[u8] = *self;
        if bytes.is_empty() {
            return Ok(None);
        }
        *self = &bytes[1..];
        Ok(Some(bytes[0]))
    }

    fn fill_buffer(&mut self, buffer: &mut [u8]) -> Result<usize, ReadFault> {
        let bytes: &[u8] = *self;
        let count = bytes.len().min(buffer.len());
        buffer[..count].copy_from_slice(&bytes[..count]);
        *self = &bytes[count..];
        Ok(count)
    }
}

/// The next byte, or `None` at the end.
pub(crate) fn read_byte<M, S: ByteSource<M>>(source: &mut S) -> Result<Option<u8>, PbmFault>
    ensures { MatchResult result
        (TakesNext (S.view source.old) (S.view source.new))
        (λ fault. (fault ≡ PbmFault.Read)
        × TakesUntil (S.view source.old) (S.view source.new) [] fault) }
{
    match source.next() {
        Ok(found) => Ok(found),
        Err(_) => Err(PbmFault::Read),
    }
}

/// The next byte, where the image needs one.
pub(crate) fn next_byte<M, S: ByteSource<M>>(source: &mut S) -> Result<u8, PbmFault>
    ensures { MatchResult result
        (λ byte. TakesBytes (S.view source.old) (S.view source.new) (byte ∷ []))
        (λ fault. TakesUntil (S.view source.old) (S.view source.new) [] fault
        × HasNoByte (S.view source.new).remaining fault) }
{
    match read_byte(source)? {
        Some(byte) => Ok(byte),
        None => Err(PbmFault::Cut),
    }
}

/// Fills a row with the next bytes. The image needs all of them.
pub(crate) fn next_row<M, S: ByteSource<M>>(source: &mut S, row: &mut [u8]) -> Result<(), PbmFault>
    ensures { MatchResult result
        (λ _. TakesBytes (S.view source.old) (S.view source.new) row.new)
        (λ fault. (part : List ℕ) × TakesUntil (S.view source.old) (S.view source.new) part fault
        × (length part < length row.new) × HasNoByte (S.view source.new).remaining fault) }
{
    match source.fill_buffer(row) {
        Ok(count) if count < row.len() => Err(PbmFault::Cut),
        Ok(_) => Ok(()),
        Err(ReadFault::Read) => Err(PbmFault::Read),
    }
}
