//! The files that a line names to be read, and the standard input.

ghost use Rattle.std.specs.Prelude.{None, true};

use crate::notes::{note_error, show_note};
use crate::watched::{NO_IMAGE, Watched};
use relay_shared::NamedFile;
use relay_streams::InputFault;
use std::fs::File;
use std::io::{BufReader, ErrorKind, Read};
use std::{fs, io};

/// A file by its name, or the standard input if that is `-`.
#[derive(Drop)]
pub struct RealFile<'a> {
    pub(crate) rt: &'a HostRuntime,
    pub(crate) name: String,
}

/// The program's input, or a file.
#[derive(Drop)]
pub enum Source<I: Drop> {
    Input(I),
    File(File),
}

impl<I: Read + Drop> Read for Source<I> {
    fn read(&mut self, buf: &mut [u8]) -> io::Result<usize> {
        match self {
            Source::Input(input) => input.read(buf),
            Source::File(file) => file.read(buf),
        }
    }
}

impl NamedFile for RealFile<'_> {
    type Reader = Watched<BufReader<Source<<HostRuntime as Input>::Reader>>>;

    ghost known = { λ _. record { remaining = None; may_refuse = λ _. true } };

    fn open(&self) -> Result<Self::Reader, InputFault> {
        let source = if self.name.as_str() == "-" {
            Source::Input(self.rt.reader())
        } else {
            match fs::open(self.rt, self.name.as_str()) {
                Ok(file) => Source::File(file),
                Err(error) if error.kind() == ErrorKind::OutOfMemory => {
                    return Err(InputFault::Memory);
                }
                Err(error) => {
                    note_error(self.rt, self.name.as_str(), &error);
                    return Err(InputFault::Read);
                }
            }
        };
        let reader = BufReader::new(self.rt.alloc(), source).or(Err(InputFault::Memory))?;
        Ok(Watched::new(reader))
    }

    fn end(&self, reader: Self::Reader, refused: Option<&str>) {
        if let Some(error) = &reader.error {
            note_error(self.rt, self.name.as_str(), error);
        } else if let Some(why) = refused {
            show_note(self.rt, self.name.as_str(), why);
        } else if reader.is_empty() {
            show_note(self.rt, self.name.as_str(), NO_IMAGE);
        }
    }
}
