//! Writers that remember whether a write has failed.

ghost use Rattle.std.specs.IoError.{error_kind};
ghost use Rattle.std.specs.Prelude.{◌<◌, ◌≢◌, length, IfErr, IfOk, OnOk, ◌≡◌, true, false, OnErr};
ghost use Rattle.std.specs.Io.{WritesAtMost};
ghost use Rattle.std.specs.Io.KnownBytes.{Appends, WriteAppends};
ghost use Rattle.relay_streams.specs.Streams.{AppendsPart, OutputView, refused_line, StaysFailed};
ghost use Rattle.std.specs.List.{flat_map};

use crate::fault::{WriteFault, interrupted_always};
use std::io::{self, Error, ErrorKind, Write};
use std::marker::Model;

/// A writer, and whether a write has failed.
#[derive(Drop)]
pub struct Output<W: Write> {
    writer: W,
    failed: bool,
}

impl<W: Write> Model for Output<W> {
    ghost Value = { OutputView };

    ghost view = { λ output. record { contents = W.contents output.writer; has_failed = output.failed } };
}

// Writes some bytes of a text, at least one if it has any. A write that a signal interrupts is made again, and one that
// takes no byte has failed.
fn write_some<W: Write>(writer: &mut W, text: &[u8]) -> io::Result<usize>
    ensures bound { WritesAtMost result text.now }
    ensures some { IfOk result (λ count. 0 < count) }
    ensures bytes { WriteAppends (W.contents writer.old) (W.contents writer.new) result text.now }
    ensures retried { IfErr result (λ error. error_kind error ≢ ErrorKind.Interrupted) }
{
    let mut tries = 0;
    while tries < u64::MAX {
        match writer.write(text) {
            Ok(0) => return Err(Error::from(ErrorKind::WriteZero)),
            Err(error) if error.kind() == ErrorKind::Interrupted => tries += 1,
            ended => return ended,
        }
    }
    Err(interrupted_always(tries))
}

/// Writes the whole text to any writer, in as many writes as it takes. Of a bare writer no contract says that a write
/// has failed: [`Output::put`] says it.
///
/// # Errors
/// `Write` where the writer has refused a write; a part of the text has gone out, and nothing else.
pub fn put_to<W: Write>(writer: &mut W, text: &[u8]) -> Result<(), WriteFault>
    ensures written { OnOk result (Appends (W.contents writer.old) (W.contents writer.new) text.now) }
    ensures part { AppendsPart (W.contents writer.old) (W.contents writer.new) text.now }
{
    let mut rest = text;
    while !rest.is_empty() {
        let Ok(count) = write_some(writer, rest) else {
            return Err(WriteFault::Write);
        };
        rest = &rest[count..];
    }
    Ok(())
}

impl<W: Write> Output<W> {
    /// The writer, to which no write has failed.
    pub fn new(writer: W) -> Self
        ensures contents { result.contents ≡ W.contents writer }
        ensures whole { result.has_failed ≡ false }
    {
        Output {
            writer,
            failed: false,
        }
    }

    /// Whether a write has failed.
    pub fn has_failed(&self) -> bool
        ensures { result ≡ self.now.has_failed }
    {
        self.failed
    }

    /// The writer, to be looked at.
    pub fn writer(&self) -> &W
        ensures { W.contents result.now ≡ self.now.contents }
    {
        &self.writer
    }

    /// The writer, with the bytes that it holds.
    pub fn into_writer(self) -> W
        ensures { W.contents result ≡ self.contents }
    {
        let Output { writer, failed: _ } = self;
        writer
    }

    /// Writes the whole text. Once a write has failed nothing more is written.
    ///
    /// # Errors
    /// `Write` where the writer fails or has failed before; a part of the text may have gone out, and nothing else.
    pub fn put(&mut self, text: &[u8]) -> Result<(), WriteFault>
        ensures written { OnOk result (Appends self.old.contents self.new.contents text.now) }
        ensures part { AppendsPart self.old.contents self.new.contents text.now }
        ensures kept { OnOk result (self.new.has_failed ≡ self.old.has_failed) }
        ensures failed { OnErr result (self.new.has_failed ≡ true) }
        ensures stuck { StaysFailed self.old result self.new }
    {
        if self.failed {
            return Err(WriteFault::Write);
        }
        let put = put_to(&mut self.writer, text);
        if put.is_err() {
            self.failed = true;
        }
        put
    }

    /// Writes the texts of all pieces, one after another.
    ///
    /// # Errors
    /// As [`Output::put`] of the whole text.
    pub fn put_all(&mut self, pieces: &[&[u8]]) -> Result<(), WriteFault>
        ensures written { OnOk result
            (Appends self.old.contents self.new.contents (flat_map (λ piece. piece.now) pieces.now)) }
        ensures part { AppendsPart self.old.contents self.new.contents (flat_map (λ piece. piece.now) pieces.now) }
        ensures kept { OnOk result (self.new.has_failed ≡ self.old.has_failed) }
        ensures failed { OnErr result (self.new.has_failed ≡ true) }
        ensures stuck { StaysFailed self.old result self.new }
    {
        if self.has_failed() {
            return Err(WriteFault::Write);
        }
        for piece in pieces {
            self.put(piece)?;
        }
        Ok(())
    }

    /// Writes the line `refused NAME`. No memory is taken.
    ///
    /// # Errors
    /// As [`Output::put`] of the line.
    pub fn put_refusal(&mut self, name: &str) -> Result<(), WriteFault>
        ensures written { OnOk result (Appends self.old.contents self.new.contents (refused_line name.now)) }
        ensures part { AppendsPart self.old.contents self.new.contents (refused_line name.now) }
        ensures kept { OnOk result (self.new.has_failed ≡ self.old.has_failed) }
        ensures failed { OnErr result (self.new.has_failed ≡ true) }
        ensures stuck { StaysFailed self.old result self.new }
    {
        self.put_all(&[b"refused ", name.as_bytes(), b"\n"])
    }
}
