//! Where the bytes of an image go: a writer that remembers whether it has failed, or any writer.

ghost use Rattle.std.specs.Prelude.{◌≡◌, Bool, true, false, OnOk, OnErr};
ghost use Rattle.relay_streams.specs.Streams.{AppendsPart, OutputView};
ghost use Rattle.dm_pbm_io.specs.inner.Streaming.{AppendsText};

use crate::source::{Bare, Remembering};
use relay_streams::{Output, WriteFault, put_to};
use std::io::Write;

/// A taker of bytes. The mark `M` keeps the two impls apart.
pub(crate) trait ByteSink<M> {
    ghost view: { Self → OutputView };

    // Whether it takes nothing more, since a write has failed. A bare writer does not remember that.
    ghost is_stuck: { Self → Bool };

    /// Writes the whole text.
    fn put_text(&mut self, text: &[u8]) -> Result<(), WriteFault>
        ensures written { OnOk result (AppendsText (view self.old) (view self.new) text.now) }
        ensures part { AppendsPart (view self.old).contents (view self.new).contents text.now }
        ensures failed { OnErr result ((view self.new).has_failed ≡ true) }
        ensures stuck { is_stuck self.old ≡ true
            → (result ≡ Err WriteFault.Write) × (view self.new ≡ view self.old) };
}

impl<W: Write> ByteSink<Remembering> for Output<W> {
    ghost view = { λ output. output };

    ghost is_stuck = { λ output. output.has_failed };

    fn put_text(&mut self, text: &[u8]) -> Result<(), WriteFault> {
        self.put(text)
    }
}

impl<W: Write> ByteSink<Bare> for W {
    ghost view = { λ writer. record { contents = W.contents writer; has_failed = true } };

    ghost is_stuck = { λ _. false };

    fn put_text(&mut self, text: &[u8]) -> Result<(), WriteFault> {
        put_to(self, text)
    }
}
