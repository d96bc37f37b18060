//! `relay read`: what the symbols in images carry.

ghost use Rattle.std.specs.Prelude.{◌≡◌, ◌≤◌, ◌++◌, length, map, string_bytes, IfOk, OnOk, false, MatchResult};
ghost use Rattle.relay_shared.specs.Command.{NotesChange};
ghost use Rattle.relay_shared.specs.Lines.{hexadecimal};
ghost use Rattle.relay_symbol_commands.specs.Symbols.{label_line, line_tail, HasLine, HasNoHead, HasPictureLine, RefusesGrid, RefusesPicture, EndsRead, is_image_refusal, read_images, read_refusal_name};
ghost use Rattle.dm_finder_frame.specs.Frame.{GridView};
ghost use Rattle.dm_append_label.specs.Opening.{page_at_front};
ghost use Rattle.dm_pbm_io.specs.Image.{picture};
ghost use Rattle.dm_symbol.specs.Correction.{IsCorrectedAs};

use crate::refusal::ReadRefusal;
use dm_append_label::{FoundPage, LabelFault, MOST_PAGE_BYTES, find_page};
use dm_encodation::decode_to_slice;
use dm_finder_frame::LentGrid;
use dm_pbm_io::{Image, grid_in};
use dm_symbol::{Corrected, correct_grid};
use relay_shared::{
    Answered, DONE, NamedFile, OnImages, REFUSED, Streams, each_input, note_ending, put_image_note,
};
use relay_streams::{Output, WriteFault};
use std::alloc::{AllocError, Allocator};
use std::fmt::Write as _;
use std::io::{Read, Write};

// The most bytes of a text: 1,304 pairs of digits in the greatest symbol.
const MOST_TEXT_BYTES: usize = 2608;

fn hexadecimal_of<A: Allocator + Copy>(alloc: A, bytes: &[u8]) -> Result<String<A>, AllocError>
    ensures { IfOk result (λ text. string_bytes text ≡ hexadecimal bytes.now) }
{
    if bytes.is_empty() {
        let mut text = String::new(alloc);
        text.push('-')?;
        return Ok(text);
    }
    hex::encode(alloc, bytes)
}

// Appends to a line how much of the symbol was wrong, its bytes, and the line's end.
fn push_line_end<A: Allocator + Copy>(
    alloc: A,
    line: &mut String<A>,
    corrected: u16,
    wrong: u16,
    bytes: &[u8],
) -> Result<(), AllocError>
    ensures { OnOk result
        (string_bytes line.new ≡ string_bytes line.old ++ line_tail corrected wrong bytes.now) }
{
    let text = hexadecimal_of(alloc, bytes)?;
    write!(line, " corrected {corrected} wrong {wrong} {text}\n")?;
    Ok(())
}

fn line_of_label<A: Allocator + Copy>(
    alloc: A,
    page: FoundPage,
    room: &[u8],
    symbol: &Corrected,
) -> Result<String<A>, AllocError>
    requires { page.count ≤ length room.now }
    ensures { IfOk result (λ line.
        string_bytes line ≡ label_line (page_at_front room.now page) symbol.now.corrected symbol.now.wrong) }
{
    let FoundPage { id, m, n, count } = page;
    let (first, second) = id.words();
    let id = hex::encode(alloc, [first, second])?;
    let (corrected, wrong) = (symbol.corrected(), symbol.wrong());
    let mut line = String::new(alloc);
    write!(line, "label {id} {m}/{n}")?;
    push_line_end(alloc, &mut line, corrected, wrong, &room[..count])?;
    Ok(line)
}

// The line of a symbol that is no label: its text begins at its first codeword.
fn line_of_no_label<A: Allocator + Copy>(
    alloc: A,
    symbol: &Corrected,
) -> Result<String<A>, ReadRefusal>
    ensures { (grid : GridView) → IsCorrectedAs grid symbol.now → HasNoHead grid symbol.now.words
        → MatchResult result (λ line. HasLine grid (string_bytes line)) (RefusesGrid grid) }
{
    let mut room = [0u8; MOST_TEXT_BYTES];
    let count = match decode_to_slice(symbol.data(), 0, &mut room) {
        Ok(count) => count,
        Err(fault) => return Err(ReadRefusal::Text(fault)),
    };
    let (corrected, wrong) = (symbol.corrected(), symbol.wrong());
    let side = symbol.size().side();
    let mut line = String::new(alloc);
    write!(line, "symbol {side}")?;
    push_line_end(alloc, &mut line, corrected, wrong, &room[..count])?;
    Ok(line)
}

// The line of a grid: that of a label first.
fn line_of_grid<A: Allocator + Copy>(alloc: A, grid: &LentGrid) -> Result<String<A>, ReadRefusal>
    ensures { MatchResult result (λ line. HasLine grid.now (string_bytes line)) (RefusesGrid grid.now) }
{
    let symbol = match correct_grid(grid) {
        Ok(symbol) => symbol,
        Err(fault) => return Err(ReadRefusal::Label(LabelFault::from(fault))),
    };
    let mut room = [0u8; MOST_PAGE_BYTES];
    match find_page(&symbol, &mut room) {
        Ok(page) => Ok(line_of_label(alloc, page, &room, &symbol)?),
        Err(LabelFault::NotAppended) => line_of_no_label(alloc, &symbol),
        Err(fault) => Err(ReadRefusal::Label(fault)),
    }
}

// The line of an image.
fn line_of_image<A: Allocator + Copy>(alloc: A, image: &Image<A>) -> Result<String<A>, ReadRefusal>
    ensures { MatchResult result
        (λ line. HasPictureLine (picture image.now) (string_bytes line)) (RefusesPicture (picture image.now)) }
{
    match grid_in(image) {
        Some(grid) => line_of_grid(alloc, &grid),
        None => Err(ReadRefusal::Shape),
    }
}

// Notes of a refused image after which change it would be read, if there is one.
fn note_change<A: Allocator + Copy, E: Write>(
    alloc: A,
    errors: &mut Output<E>,
    number: u32,
    image: &Image<A>,
    refusal: ReadRefusal,
)
    ensures { NotesChange (is_image_refusal refusal) (picture image.now) number (read_refusal_name refusal)
        errors.old errors.new }
{
    let ending = note_ending(alloc, image, refusal.is_of_image());
    if ending.is_empty() {
        return;
    }
    put_image_note(errors, number, None, refusal.name(), &ending);
}

// Writes the line of each image.
#[derive(Drop)]
struct Reading;

impl<A: Allocator + Copy> OnImages<A> for Reading {
    ghost command = { read_images };

    ghost state = { λ _ errors. errors };

    ghost keeps = { λ _ _ _ _. Unit {0} };

    fn answer<W: Write, E: Write>(
        &mut self,
        alloc: A,
        output: &mut Output<W>,
        errors: &mut Output<E>,
        number: u32,
        image: &Image<A>,
    ) -> Result<Answered, WriteFault> {
        match line_of_image(alloc, image) {
            Ok(line) => {
                output.put(line.as_bytes())?;
                Ok(DONE)
            }
            Err(refusal) => {
                let name = refusal.name();
                note_change(alloc, errors, number, image, refusal);
                output.put_refusal(name)?;
                Ok(REFUSED)
            }
        }
    }

    fn has_ended<E: Write>(&self, _errors: &Output<E>) -> bool {
        false
    }

    fn see_unread<E: Write>(&mut self, _errors: &mut Output<E>, _number: u32, _name: &str) {}

    ghost keeps_itself = { λ _ _. tt };

    ghost keeps_later = { λ _ _ _ _ _ _ _ _. tt };
}

/// Reads the images of all files, or of the input where there is none, one after another, and prints a line for each:
/// what its symbol carries, as `label IIII m/n corrected C wrong W HEX` or `symbol SIDE corrected C wrong W HEX`, or
/// `refused NAME`. A refused image doesn't end the command; bytes that are no image end their file, and so does a plain
/// image. At most 65,536 images of a file are read. An image that would be read if it were changed is named on the
/// standard error, as `relay: image N: NAME`, and then what [`note_ending`] gives.
pub fn read_command<A: Allocator + Copy, F: NamedFile, R: Read, W: Write, E: Write>(
    alloc: A,
    images: &[F],
    streams: &mut Streams<R, W, E>,
) -> u8
    ensures { EndsRead (map F.known images.now) streams.old result streams.new }
{
    let mut reading = Reading;
    let (input, output) = (&mut streams.input, &mut streams.output);
    each_input(
        alloc,
        &mut reading,
        images,
        input,
        output,
        &mut streams.errors,
    )
}
