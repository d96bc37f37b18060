//! Readers and writers that move one byte at a time, and fail or are interrupted in mid-stream.

use std::io::{Error, ErrorKind, Read, Result, Write};

/// A stream that fails once a number of bytes has passed: each time, once or three times in a row. After that it goes
/// on, so that a test sees what is written after the failure.
#[derive(Drop)]
pub struct Faulty<S> {
    stream: S,
    // How many bytes still pass, and how many calls then fail, and by which error.
    passes: usize,
    failures: u32,
    error: ErrorKind,
}

/// A writer into a vector that fails.
pub type FaultyWriter = Faulty<Vec<u8>>;

impl<S> Faulty<S> {
    /// A stream that fails each time after `passes` bytes.
    pub fn failing(stream: S, passes: usize) -> Faulty<S> {
        Faulty {
            stream,
            passes,
            failures: u32::MAX,
            error: ErrorKind::Other,
        }
    }

    /// A stream that fails once, after `passes` bytes.
    pub fn failing_once(stream: S, passes: usize) -> Faulty<S> {
        Faulty {
            stream,
            passes,
            failures: 1,
            error: ErrorKind::Other,
        }
    }

    /// A stream that is interrupted three times in a row, after `passes` bytes.
    pub fn interrupted(stream: S, passes: usize) -> Faulty<S> {
        Faulty {
            stream,
            passes,
            failures: 3,
            error: ErrorKind::Interrupted,
        }
    }

    // Fails if a call is to fail now.
    fn come(&mut self) -> Result<()> {
        if self.passes > 0 || self.failures == 0 {
            return Ok(());
        }
        self.failures -= 1;
        Err(Error::from(self.error))
    }
}

impl FaultyWriter {
    /// What was taken.
    pub fn taken(&self) -> &[u8] {
        self.stream.as_slice()
    }
}

impl Read for Faulty<&[u8]> {
    fn read(&mut self, buf: &mut [u8]) -> Result<usize> {
        self.come()?;
        let most = buf.len().min(1);
        let count = self.stream.read(&mut buf[..most])?;
        self.passes = self.passes.saturating_sub(count);
        Ok(count)
    }
}

impl Write for FaultyWriter {
    fn write(&mut self, buf: &[u8]) -> Result<usize> {
        self.come()?;
        let count = self.stream.write(&buf[..buf.len().min(1)])?;
        self.passes = self.passes.saturating_sub(count);
        Ok(count)
    }

    fn flush(&mut self) -> Result<()> {
        Ok(())
    }
}
