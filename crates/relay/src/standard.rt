//! A command between the standard streams: what it writes goes out through buffers.

ghost use Rattle.std.specs.Prelude.{◌≡◌, map, true};
ghost use Rattle.relay_buffers.specs.Buffers.{empty_before, promised};
ghost use Rattle.relay.specs.Program.{DoesBetween, PutsOut, ShowsPart, TellsOut, StandardView, least_of, streams_over};
ghost use Rattle.relay_places.specs.Places.{files_of};
ghost use Rattle.std.specs.Io.KnownBytes.{Appends};

use crate::commands::do_command;
use crate::named::refuses_on_errors;
use dm_store::{Store, StoreSet};
use relay_buffers::LineBuffer;
use relay_command::Command;
use relay_places::Watched;
use relay_shared::{EndedDesk, NamedFile, Streams, refuse};
use relay_streams::{Output, put_to};
use std::alloc::Allocator;
use std::io::{Read, Write};
use std::marker::Model;

// How many bytes of its output a command that answers once keeps, before it lets whole lines out.
const MANY_BYTES: usize = 8192;

/// The standard streams: the input, the output and the standard error.
#[derive(Drop)]
pub struct StandardStreams<I: Read, O: Write, E: Write>(pub I, pub O, pub E);

impl<I: Read, O: Write, E: Write> Model for StandardStreams<I, O, E> {
    ghost Value = { StandardView };

    ghost view = { λ standard. record {
      input = I.remaining standard.0;
      output = O.contents standard.1;
      errors = E.contents standard.2;
    } };
}

// Whether a command answers to each image before it waits for the next.
fn answers_each_image(command: Command) -> bool {
    matches!(command, Command::Read | Command::Scan { .. })
}

// What the output of a command goes through. Of `read`, `scan`, `import` and `world` each line goes out before the next
// image is waited for, the next file is read or the next event comes.
fn output_of<A: Allocator, W: Write>(alloc: A, writer: W, command: Command) -> LineBuffer<W, A>
    ensures { result ≡ empty_before (W.contents writer) (least_of command.entry) }
{
    let least = match command {
        Command::Read | Command::Scan { .. } | Command::Import { .. } | Command::World => 0,
        _ => MANY_BYTES,
    };
    LineBuffer::new(alloc, writer, least)
}

// The streams of a command. Its output keeps what it may, and what it says on the standard error goes out at once.
fn streams_of<A: Allocator, I: Read + Drop, O: Write, E: Write>(
    input: Watched<I>,
    output: LineBuffer<O, A>,
    errors: LineBuffer<E, A>,
    command: Command,
) -> Streams<Watched<I>, LineBuffer<O, A>, LineBuffer<E, A>>
    requires output { output ≡ empty_before output.out (least_of command) }
    requires errors { errors ≡ empty_before errors.out 0 }
    ensures { result ≡ streams_over (record { input = I.remaining input.reader; output = output.out; errors = errors.out }) }
{
    Streams::new(input, output, errors)
}

// Whether it is said that the output has failed: always of a command that has ended with 0; else where the output has
// failed before, but for one that answers to each image, and for one that has said so itself.
fn says_failure(command: Command, has_failed: bool, status: u8) -> bool
    ensures { status ≡ 0 → result ≡ true }
{
    status == 0 || has_failed && !refuses_on_errors(command) && !answers_each_image(command)
}

/// Tells a stream the line of a refusal, and gives the exit status.
pub(crate) fn tell<A: Allocator, W: Write + Drop>(alloc: A, writer: W, name: &str) -> (u8, W)
    ensures { TellsOut name.now (W.contents writer) result.0 (W.contents result.1) }
{
    let mut told = Output::new(LineBuffer::new(alloc, writer, 0));
    let status = refuse(&mut told, name);
    let (writer, _) = told.into_writer().end();
    (status, writer)
}

/// Writes a text, and says whether all of it is out.
pub(crate) fn show<A: Allocator, W: Write + Drop>(alloc: A, writer: W, text: &[u8]) -> (W, bool)
    ensures all { result.1 ≡ true → Appends (W.contents writer) (W.contents result.0) text.now }
    ensures part { ShowsPart (W.contents writer) (W.contents result.0) text.now }
{
    let mut buffer = LineBuffer::new(alloc, writer, 0);
    let put = put_to(&mut buffer, text);
    let (writer, is_all) = buffer.end();
    (writer, is_all && put.is_ok())
}

// Lets out what a command has written; where the output takes less, that is said if it is to be. The exit status, which
// is not 0 if the standard error takes less, and the writers.
fn let_out<A: Allocator, O: Write + Drop, E: Write + Drop>(
    output: LineBuffer<O, A>,
    errors: Output<LineBuffer<E, A>>,
    ended: u8,
    says: bool,
) -> (u8, O, E)
    requires { ended ≡ 0 → says ≡ true }
    ensures { PutsOut (promised output) errors ended result.0 (O.contents result.1) (E.contents result.2) }
{
    let (output, is_all) = output.end();
    let mut told = errors;
    let status = if !is_all && says {
        refuse(&mut told, "Write")
    } else {
        ended
    };
    let (errors, is_told) = told.into_writer().end();
    let status = if is_told { status } else { status.max(1) };
    (status, output, errors)
}

/// How a command has ended, and what it leaves.
#[derive(Drop)]
pub(crate) struct Done<S: Store, T: StoreSet, I: Read, O: Write, E: Write> {
    pub(crate) status: u8,
    pub(crate) store: S,
    pub(crate) set: T,
    pub(crate) standard: StandardStreams<I, O, E>,
    /// Whether the input was to have images, and had none.
    pub(crate) has_no_image: bool,
}

/// Does a command over a store, a set and files to be read, and lets out what it has written. It stays a function of
/// its own, so that the frames of its instances don't add up on the stack.
#[inline(never)]
#[rattlefmt::skip] // a pattern a line
pub(crate) fn do_between<
    A: Allocator + Copy, S: Store, T: StoreSet, F: NamedFile, I: Read + Drop, O: Write + Drop, E: Write + Drop,
>(
    alloc: A, store: S, set: T, inputs: &[F], standard: StandardStreams<I, O, E>, command: Command,
) -> Done<S, T, I, O, E>
    ensures { DoesBetween A command.entry (map F.known inputs.now) (files_of (S.state store) (T.state set)) standard
        result.status (files_of (S.state result.store) (T.state result.set)) result.standard }
{
    let StandardStreams(input, output, errors) = standard;
    let output = output_of(alloc, output, command);
    let errors = LineBuffer::new(alloc, errors, 0);
    let mut streams = streams_of(Watched::new(input), output, errors, command);
    let ended = do_command(alloc, store, set, inputs, &mut streams, command);
    let EndedDesk { status, store, set } = ended;
    let Streams { input, output, errors } = streams;
    let says = says_failure(command, output.has_failed(), status);
    let (status, output, errors) = let_out(output.into_writer(), errors, status, says);
    let input = input.into_reader();
    let has_no_image = status == 0 && answers_each_image(command) && input.is_empty();
    let input = input.into_reader();
    let standard = StandardStreams(input, output, errors);
    Done { status, store, set, standard, has_no_image }
}
