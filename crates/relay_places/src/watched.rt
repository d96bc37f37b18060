//! Readers of which it is known whether they had anything.

ghost use Rattle.std.specs.Prelude.{◌≡◌};

use std::io::{self, Read};

/// What is said of an input in which no image was.
pub(crate) const NO_IMAGE: &str = "no image was read";

/// A reader that remembers whether it was asked for bytes, whether it has given any, and why it has failed.
#[derive(Drop)]
pub struct Watched<R: Drop> {
    pub reader: R,
    pub was_asked: bool,
    pub has_given: bool,
    pub error: Option<io::Error>,
}

impl<R: Read + Drop> Watched<R> {
    /// Watches a reader that was not asked yet.
    pub fn new(reader: R) -> Watched<R>
        ensures { result.reader ≡ reader }
    {
        Watched {
            reader,
            was_asked: false,
            has_given: false,
            error: None,
        }
    }

    /// Whether it was asked for bytes, and has given none.
    pub fn is_empty(&self) -> bool {
        self.was_asked && !self.has_given
    }

    /// The reader.
    pub fn into_reader(self) -> R
        ensures { result ≡ self.reader }
    {
        self.reader
    }
}

impl<R: Read + Drop> Read for Watched<R> {
    ghost remaining = { λ watched. R.remaining watched.reader };

    fn read(&mut self, buf: &mut [u8]) -> io::Result<usize> {
        let read = self.reader.read(buf);
        match &read {
            Ok(count) => {
                self.was_asked = true;
                self.has_given |= *count > 0;
                self.error = None;
            }
            Err(error) => self.error = Some(*error),
        }
        read
    }
}
