//! One write to a writer.

ghost use Rattle.std.specs.IoError.{error_kind};
ghost use Rattle.std.specs.Prelude.{◌≢◌, ◌+◌, ◌^◌, ◌<◌, ◌≤◌, length, IfOk};
ghost use Rattle.std.specs.Io.{WritesAtMost};
ghost use Rattle.std.specs.Io.KnownBytes.{WriteAppends};
ghost use Rattle.std.specs.declared.io.ErrorKind.TheVariants.{Interrupted};

use std::io::{Error, ErrorKind, Write};

/// Why a writer has refused a write: no signal that has interrupted it. [`write_some`] alone makes one.
#[derive(Clone, Copy)]
pub struct Refusal {
    error: Error,
    ghost lasts: { error_kind error ≢ Interrupted },
}

impl Refusal {
    /// The writer's error.
    pub fn error(self) -> Error {
        self.error
    }
}

// Why a write is given up that signals have interrupted so many times.
fn interrupted_always(_tries: u64) -> Refusal
    requires { 2 ^ 64 ≤ _tries + 1 }
{
    Refusal {
        error: Error::from(ErrorKind::TimedOut),
    }
}

/// Writes some bytes of a text, at least one, and gives their number. A write that a signal interrupts is made again,
/// and one that takes no byte is refused.
pub fn write_some<W: Write>(writer: &mut W, text: &[u8]) -> Result<usize, Refusal>
    ensures bound { WritesAtMost result text.now }
    ensures some { IfOk result (λ count. 0 < count) }
    ensures bytes { WriteAppends (W.contents writer.old) (W.contents writer.new) result text.now }
{
    let mut tries = 0;
    while tries < u64::MAX {
        match writer.write(text) {
            Ok(0) => {
                let error = Error::from(ErrorKind::WriteZero);
                return Err(Refusal { error });
            }
            Ok(count) => return Ok(count),
            Err(error) if error.kind() == ErrorKind::Interrupted => tries += 1,
            Err(error) => return Err(Refusal { error }),
        }
    }
    Err(interrupted_always(tries))
}
