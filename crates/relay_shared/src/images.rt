//! Images that follow one another on the input of a command, or in files that it is given, and the loops that answer to
//! each by a line.

ghost use Rattle.std.specs.Prelude.{◌≡◌, ℕ, List, map, max, true, false, ◌<◌, MatchResult, IfOk, IfErr, IsTrue, Some};
ghost use Rattle.std.specs.Io.KnownBytes.{Consumes, IsAtEnd, Keeps};
ghost use Rattle.relay_shared.specs.Command.{FileView, IsAnother, Progress, TellsFile, TellsFiles, TellsImages, TellsInputs, at_image, has_stopped, progress_at, AnswersPicture, ImageCommand};
ghost use Rattle.relay_shared.specs.declared.images.TheConstants.{MOST_IMAGES};
ghost use Rattle.relay_shared.specs.inner.Steps.{StopsStep, TakesStep};
ghost use Rattle.dm_pbm_io.specs.Image.{picture};
ghost use Rattle.relay_streams.specs.Streams.{OutputView};

use crate::command::{Refusal, refuse};
use dm_pbm_io::Image;
use relay_streams::{Input, InputFault, Output, WriteFault};
use std::alloc::Allocator;
use std::io::{Read, Write};

/// The most images that a command reads of the input, or of each file.
pub const MOST_IMAGES: u32 = 65_536;

/// What a command has answered to an image.
#[derive(Clone, Copy)]
pub struct Answered {
    /// Whether the line names a refusal.
    pub refused: bool,
    /// Whether the command has ended, and reads no more.
    pub last: bool,
}

/// The line names no refusal, and the command reads on.
pub const DONE: Answered = Answered {
    refused: false,
    last: false,
};

/// The line names a refusal, and the command reads on.
pub const REFUSED: Answered = Answered {
    refused: true,
    last: false,
};

// Whether the input has ended, or something else comes.
fn is_at_end<A: Allocator + Copy, R: Read>(alloc: A, input: &mut Input<R>) -> bool
    ensures ended { result ≡ true → Keeps input.old.remaining input.new.remaining × IsAtEnd input.new.remaining }
    ensures whole { result ≡ true → input.new.has_failed ≡ input.old.has_failed }
    ensures another { result ≡ false → (taken : List ℕ) × Consumes input.old.remaining input.new.remaining taken
        × IsAnother taken input.new }
{
    matches!(Image::read(alloc, input), Ok(None))
}

/// What a command does with each image.
pub trait OnImages<A: Allocator + Copy> {
    /// What it answers to a picture.
    ghost command: { ImageCommand };

    /// Its state, by what is seen of the standard error.
    ghost state: { Self → OutputView → command.State };

    /// What it keeps of itself, and of the standard error.
    ghost keeps: { Self → OutputView → Self → OutputView → Type 0 };

    /// Writes the line of image number `number`, from 1.
    fn answer<W: Write, E: Write>(
        &mut self,
        alloc: A,
        output: &mut Output<W>,
        errors: &mut Output<E>,
        number: u32,
        image: &Image<A>,
    ) -> Result<Answered, WriteFault>
        requires running { command.has_ended (state self.old errors.old) ≡ false }
        ensures answer { AnswersPicture command number (picture image.now)
            (record { state = state self.old errors.old; output = output.old })
            result
            (record { state = state self.new errors.new; output = output.new }) }
        ensures kept { keeps self.old errors.old self.new errors.new };

    /// Whether it has ended, and reads no more.
    fn has_ended<E: Write>(&self, errors: &Output<E>) -> bool
        ensures ended { result ≡ command.has_ended (state self.now errors.now) };

    /// Called before the line of an image that could not be read, with its number, from 1, and the refusal's name.
    fn see_unread<E: Write>(&mut self, errors: &mut Output<E>, number: u32, name: &str)
        ensures seen { command.SeesUnread number (state self.old errors.old) name.now (state self.new errors.new) }
        ensures kept { keeps self.old errors.old self.new errors.new };

    ghost keeps_itself: { (now : Self) (errors : OutputView) → keeps now errors now errors };

    ghost keeps_later: { (first now later : Self) (a b c : OutputView)
        → keeps first a now b → keeps now b later c → keeps first a later c };
}

// After this many images, reads the next one, and writes the line of the answer.
fn next_image<A: Allocator + Copy, C: OnImages<A>, R: Read, W: Write, E: Write>(
    alloc: A,
    command: &mut C,
    input: &mut Input<R>,
    output: &mut Output<W>,
    errors: &mut Output<E>,
    count: u32,
) -> Result<Answered, WriteFault>
    requires running { C.command.has_ended (C.state command.old errors.old) ≡ false }
    requires few { count < MOST_IMAGES }
    ensures step { let old : Progress C.command = progress_at (C.state command.old errors.old) input.old output.old in
        let new : Progress C.command = progress_at (C.state command.new errors.new) input.new output.new in
        MatchResult result (λ answered. TakesStep C.command count old answered new)
        (λ _. StopsStep C.command count old new) }
    ensures kept { C.keeps command.old errors.old command.new errors.new }
{
    match Image::read(alloc, input) {
        Ok(None) => Ok(Answered { last: true, ..DONE }),
        Ok(Some(image)) => {
            let answered = command.answer(alloc, output, errors, count + 1, &image)?;
            let last = image.plain | answered.last;
            Ok(Answered { last, ..answered })
        }
        Err(fault) => {
            let name = fault.name();
            command.see_unread(errors, count + 1, name);
            output.put_refusal(name)?;
            let last = true;
            Ok(Answered { last, ..REFUSED })
        }
    }
}

// Reads images, one after another, 65,536 at most, and writes the line that the command answers to each.
fn each_image<A: Allocator + Copy, C: OnImages<A>, R: Read, W: Write, E: Write>(
    alloc: A,
    command: &mut C,
    input: &mut Input<R>,
    output: &mut Output<W>,
    errors: &mut Output<E>,
) -> u8
    requires { C.command.has_ended (C.state command.old errors.old) ≡ false }
    ensures told { TellsImages C.command (progress_at (C.state command.old errors.old) input.old output.old) result
        (progress_at (C.state command.new errors.new) input.new output.new) }
    ensures kept { C.keeps command.old errors.old command.new errors.new }
{
    let mut refused = false;
    for count in 0..MOST_IMAGES {
        match next_image(alloc, command, input, output, errors, count) {
            Ok(answered) => {
                refused |= answered.refused;
                if answered.last {
                    return u8::from(refused);
                }
            }
            Err(WriteFault::Write) => return 1,
        }
    }
    if is_at_end(alloc, input) {
        return u8::from(refused);
    }
    refuse(output, Refusal::TooMany.name())
}

/// A file that a command is given by its name, and that is opened when its turn comes.
pub trait NamedFile {
    type Reader: Read + Drop;

    /// What is known of it.
    ghost known: { Self → FileView };

    /// Opens it.
    ///
    /// # Errors
    /// `Read` where it can't be opened; `Memory` where the allocator refuses.
    fn open(&self) -> Result<Self::Reader, InputFault>
        ensures opened { IfOk result (λ reader. Self.Reader.remaining reader ≡ (known self.now).remaining) }
        ensures refused { IfErr result (λ fault. IsTrue ((known self.now).may_refuse fault)) };

    /// Called after the last line of a file that was opened, with its reader, and what is to be noted of it, if a line
    /// names a refusal.
    fn end(&self, reader: Self::Reader, refused: Option<&str>);
}

impl<'a> NamedFile for &'a [u8] {
    type Reader = &'a [u8];

    ghost known = { λ bytes. record { remaining = Some bytes.now; may_refuse = λ _. false } };

    fn open(&self) -> Result<&'a [u8], InputFault> {
        Ok(*self)
    }

    fn end(&self, _reader: &'a [u8], _refused: Option<&str>) {}
}

// Answers to each image of a file.
fn each_of_file<A: Allocator + Copy, C: OnImages<A>, F: NamedFile, W: Write, E: Write>(
    alloc: A,
    command: &mut C,
    file: &F,
    output: &mut Output<W>,
    errors: &mut Output<E>,
) -> u8
    requires { C.command.has_ended (C.state command.old errors.old) ≡ false }
    ensures told { TellsFile C.command (F.known file.now) (at_image (C.state command.old errors.old) output.old)
        result (at_image (C.state command.new errors.new) output.new) }
    ensures kept { C.keeps command.old errors.old command.new errors.new }
{
    let reader = match file.open() {
        Ok(reader) => reader,
        Err(fault) => return refuse(output, fault.name()),
    };
    let mut input = Input::new(reader);
    let status = each_image(alloc, command, &mut input, output, errors);
    let is_noted = status != 0 && !output.has_failed();
    let refused = is_noted.then_some("has images that are refused");
    file.end(input.into_reader(), refused);
    status
}

/// The greater of two exit statuses.
pub fn greater(one: u8, other: u8) -> u8
    ensures { result ≡ max one other }
{
    if one < other { other } else { one }
}

// Whether the output has failed or the command has ended, so that nothing is read any more.
fn has_stopped<A: Allocator + Copy, C: OnImages<A>, W: Write, E: Write>(
    command: &C,
    output: &Output<W>,
    errors: &Output<E>,
) -> bool
    ensures { result ≡ has_stopped C.command (at_image (C.state command.now errors.now) output.now) }
{
    output.has_failed() || command.has_ended(errors)
}

// Answers to each image of each file in turn, until the output has failed or the command has ended.
fn each_file<A: Allocator + Copy, C: OnImages<A>, F: NamedFile, W: Write, E: Write>(
    alloc: A,
    command: &mut C,
    files: &[F],
    output: &mut Output<W>,
    errors: &mut Output<E>,
) -> u8
    requires { C.command.has_ended (C.state command.old errors.old) ≡ false }
    ensures told { TellsFiles (TellsFile C.command) (has_stopped C.command) (map F.known files.now)
        (at_image (C.state command.old errors.old) output.old) result
        (at_image (C.state command.new errors.new) output.new) }
    ensures kept { C.keeps command.old errors.old command.new errors.new }
{
    let mut status = 0;
    for file in files {
        status = greater(status, each_of_file(alloc, command, file, output, errors));
        if has_stopped(command, output, errors) {
            return status;
        }
    }
    status
}

/// Answers to each image of these files in turn, until the output has failed or the command has ended; where there is
/// no file, to those of the input.
pub fn each_input<A: Allocator + Copy, C: OnImages<A>, F: NamedFile, R: Read, W: Write, E: Write>(
    alloc: A,
    command: &mut C,
    files: &[F],
    input: &mut Input<R>,
    output: &mut Output<W>,
    errors: &mut Output<E>,
) -> u8
    requires { C.command.has_ended (C.state command.old errors.old) ≡ false }
    ensures told { TellsInputs C.command (map F.known files.now)
        (progress_at (C.state command.old errors.old) input.old output.old) result
        (progress_at (C.state command.new errors.new) input.new output.new) }
    ensures kept { C.keeps command.old errors.old command.new errors.new }
{
    if files.is_empty() {
        return each_image(alloc, command, input, output, errors);
    }
    each_file(alloc, command, files, output, errors)
}
