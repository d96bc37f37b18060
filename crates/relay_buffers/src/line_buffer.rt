//! Buffers that let whole lines out, and nothing more once a write has failed.

ghost use Rattle.std.specs.Prelude.{◌≡◌, ◌≤◌, length, take, IfErr, OnErr, OnOk, IsErr, [], is_some, false, true, option_map};
ghost use Rattle.std.specs.Io.{WritesAtMost};
ghost use Rattle.std.specs.Io.KnownBytes.{Appends, Keeps, WriteAppends, append_known};
ghost use Rattle.relay_buffers.specs.Buffers.{BufferView, empty_before, held_after, held_of, promised, IsPartOut};

use crate::attempt::{Refusal, write_some};
use std::alloc::{Allocator, Global};
use std::io::{self, Write};
use std::marker::Model;

/// A buffer in front of a writer. What is written goes out at the end of a line, once there are at least `least` bytes,
/// or at a flush: in one write, unless the writer takes less. So lines of programs that write to one file don't mix.
/// After a failed write nothing more goes out, so what is reported as not written never comes later.
#[derive(Drop)]
pub struct LineBuffer<W: Write, A: Allocator = Global> {
    writer: W,
    held: Vec<u8, A>,
    least: usize,
    // Whether memory was refused for what was written last.
    is_short: bool,
    // If the writer has refused a write: how many of the bytes that are held were out by then, and why.
    failure: Option<(usize, Refusal)>,
}

impl<W: Write, A: Allocator> Model for LineBuffer<W, A> {
    ghost Value = { BufferView };

    ghost view = { λ b. record {
      out = W.contents b.writer;
      held = held_of (option_map (λ failure. failure.0) b.failure) b.held.items;
      least = b.least;
      is_short = b.is_short;
      has_failed = is_some b.failure;
    } };
}

// Writes a text. Where the writer refuses a write: how many bytes are out by then, and why.
fn write_first<W: Write>(writer: &mut W, text: &[u8]) -> Result<(), (usize, Refusal)>
    ensures all { OnOk result (Appends (W.contents writer.old) (W.contents writer.new) text.now) }
    ensures bound { IfErr result (λ failure. failure.0 ≤ length text.now) }
    ensures part { IfErr result (λ failure.
        Appends (W.contents writer.old) (W.contents writer.new) (take failure.0 text.now)) }
{
    let mut done = 0;
    while done < text.len() {
        match write_some(writer, &text[done..]) {
            Ok(count) => done += count,
            Err(why) => return Err((done, why)),
        }
    }
    Ok(())
}

impl<W: Write, A: Allocator> LineBuffer<W, A> {
    /// An empty buffer before a writer. It takes no memory.
    pub fn new(alloc: A, writer: W, least: usize) -> LineBuffer<W, A>
        ensures { result ≡ empty_before (W.contents writer) least }
    {
        LineBuffer {
            writer,
            held: Vec::new(alloc),
            least,
            is_short: false,
            failure: None,
        }
    }

    /// The writer, to which all was written that is out.
    pub fn into_writer(self) -> W
        ensures { W.contents result ≡ self.out }
    {
        let LineBuffer {
            writer,
            held: _,
            least: _,
            is_short: _,
            failure: _,
        } = self;
        writer
    }

    // Lets out what is held.
    fn let_out(&mut self) -> io::Result<()>
        ensures bytes { Keeps (promised self.old) (promised self.new) }
        ensures done { OnOk result (self.new.held ≡ [] × self.new.has_failed ≡ false) }
        ensures kept { (self.new.least ≡ self.old.least) × (self.new.is_short ≡ self.old.is_short) }
        ensures failed { OnErr result (self.new.has_failed ≡ true) }
        ensures stays { self.old.has_failed ≡ true → self.new ≡ self.old × IsErr result }
    {
        if let Some((_, why)) = self.failure {
            return Err(why.error());
        }
        if let Err((out, why)) = write_first(&mut self.writer, self.held.as_slice()) {
            self.failure = Some((out, why));
            return Err(why.error());
        }
        self.held.clear();
        Ok(())
    }

    /// Lets out what is held, and gives the writer, and whether all that was written is out.
    pub fn end(mut self) -> (W, bool)
        ensures all { result.1 ≡ true → Keeps (promised self) (W.contents result.0) }
        ensures part { IsPartOut (promised self) (W.contents result.0) }
        ensures failed { self.has_failed ≡ true → result.1 ≡ false × W.contents result.0 ≡ self.out }
    {
        let is_all = self.let_out().is_ok();
        (self.into_writer(), is_all)
    }

    // Writes past the buffer, in which there is no room: what is held goes out first.
    fn write_past(&mut self, buf: &[u8]) -> io::Result<usize>
        ensures bound { WritesAtMost result buf.now }
        ensures bytes { WriteAppends (promised self.old) (promised self.new) result buf.now }
        ensures kept { (self.new.least ≡ self.old.least) × (self.new.is_short ≡ self.old.is_short) }
        ensures done { OnOk result (self.new.held ≡ []) }
        ensures failed { OnErr result (self.new.has_failed ≡ true) }
    {
        self.let_out()?;
        match write_some(&mut self.writer, buf) {
            Ok(count) => Ok(count),
            Err(why) => {
                self.failure = Some((0, why));
                Err(why.error())
            }
        }
    }
}

impl<W: Write, A: Allocator> Write for LineBuffer<W, A> {
    ghost contents = { promised };

    fn write(&mut self, buf: &[u8]) -> io::Result<usize>
        ensures bound { WritesAtMost result buf.now }
        ensures bytes { WriteAppends (promised self.old) (promised self.new) result buf.now }
        ensures rule { self.new.has_failed ≡ false → self.new.held ≡ held_after self.old buf.now self.new.is_short }
        ensures least { self.new.least ≡ self.old.least }
        ensures failed { OnErr result (self.new.has_failed ≡ true) }
        ensures stays { self.old.has_failed ≡ true → self.new ≡ self.old × IsErr result }
    {
        if let Some((_, why)) = self.failure {
            return Err(why.error());
        }
        let before = self.held.len();
        self.is_short = self.held.extend_from_slice(buf).is_err();
        if self.is_short {
            return self.write_past(buf);
        }
        if self.held.len() < self.least || !self.held.ends_with(b"\n") {
            return Ok(buf.len());
        }
        let Err((out, why)) = write_first(&mut self.writer, self.held.as_slice()) else {
            self.held.clear();
            return Ok(buf.len());
        };
        // Of this write no more than is out has been taken.
        self.failure = Some((out, why));
        if out <= before {
            self.held.truncate(before);
            return Err(why.error());
        }
        self.held.truncate(out);
        Ok(out - before)
    }

    fn flush(&mut self) -> io::Result<()>
        ensures bytes { Keeps (promised self.old) (promised self.new) }
        ensures done { self.new.has_failed ≡ false → self.new.held ≡ [] }
        ensures whole { OnOk result (self.new.has_failed ≡ false) }
        ensures least { self.new.least ≡ self.old.least }
        ensures stays { self.old.has_failed ≡ true → self.new ≡ self.old × IsErr result }
    {
        self.let_out()?;
        self.writer.flush()
    }
}
