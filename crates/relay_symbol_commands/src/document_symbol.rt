//! The commands of the symbol that carries the document on the standard input: `relay words`, its codewords in decimal,
//! and `relay draw`, its image.

ghost use Rattle.std.specs.Prelude.{◌≡◌, length, IfOk, MatchResult, OnOk, ◌++◌, ◌∷◌, string_bytes, ◌*◌};
ghost use Rattle.dm_size.specs.Sizes as sizes;
ghost use Rattle.relay_streams.specs.Streams.{TakesPart};
ghost use Rattle.relay_symbol_commands.specs.Symbols.{ReadsSymbol, RefusesSymbol, EndsWords, EndsDraw, words_line};
ghost use Rattle.std.specs.List.{flat_map};
ghost use Rattle.std.specs.Fmt.{decimal};
ghost use Rattle.dm_symbol.specs.Correction.{grid_of_words};
ghost use Rattle.dm_pbm_io.specs.Image.{picture, image_with_quiet_zone};

use crate::refusal::SymbolRefusal;
use dm_check_blocks::complete;
use dm_encodation::{EncodeFault, Scheme, encode};
use dm_pbm_io::{Image, image_of};
use dm_size::Size;
use dm_symbol::draw_words;
use relay_shared::{
    DOCUMENT_BYTES, Streams, read_document, refuse, status_after, status_after_bytes,
};
use relay_streams::{Input, InputFault};
use std::alloc::{AllocError, Allocator, Global};
use std::fmt::Write as _;
use std::io::{Read, Write};

/// Which symbol of a document is asked for.
#[derive(Clone, Copy)]
pub struct Form {
    /// The side of the symbol, a number that need not be that of a size.
    pub side: u16,
    /// The encodation of the document.
    pub scheme: Scheme,
}

/// The size of a symbol, and all its codewords.
#[derive(Drop)]
pub(crate) struct Symbol<A: Allocator = Global> {
    pub size: Size,
    pub words: Vec<u8, A>,
}

// The symbol of the document on the input. The side is looked at first, then the input is read, then it is encoded.
fn read_symbol<A: Allocator + Copy, R: Read>(
    alloc: A,
    input: &mut Input<R>,
    form: Form,
) -> Result<Symbol<A>, SymbolRefusal>
    ensures symbol { MatchResult result
        (λ symbol. ReadsSymbol form input.old input.new symbol.size symbol.words.items)
        (RefusesSymbol form input.old input.new) }
    ensures count { IfOk result (λ symbol. length symbol.words.items ≡ sizes.all_words symbol.size) }
    ensures part { TakesPart input.old.remaining input.new.remaining DOCUMENT_BYTES }
{
    let Some(size) = Size::of_side(form.side) else {
        return Err(SymbolRefusal::Side);
    };
    let document = match read_document(alloc, input) {
        Ok(document) => document,
        Err(InputFault::Read) => return Err(SymbolRefusal::Read),
        Err(InputFault::Memory) => return Err(SymbolRefusal::Memory),
    };
    let data = match encode(alloc, form.scheme, &document, &[], size) {
        Ok(data) => data,
        Err(EncodeFault::TooLong) => return Err(SymbolRefusal::TooLong),
        Err(EncodeFault::Memory) => return Err(SymbolRefusal::Memory),
    };
    match complete(alloc, size, &data) {
        Ok(words) => Ok(Symbol { size, words }),
        Err(AllocError) => Err(SymbolRefusal::Memory),
    }
}

fn push_later<A: Allocator + Copy>(line: &mut String<A>, words: &[u8]) -> Result<(), AllocError>
    ensures { OnOk result
        (string_bytes line.new ≡ string_bytes line.old ++ flat_map (λ later. 32 ∷ decimal later) words.now) }
{
    for word in words {
        write!(line, " {word}")?;
    }
    Ok(())
}

fn line_of_words<A: Allocator + Copy>(alloc: A, words: &[u8]) -> Result<String<A>, AllocError>
    ensures { IfOk result (λ line. string_bytes line ≡ words_line words.now) }
{
    let mut line = String::new(alloc);
    if let Some((first, later)) = words.split_first() {
        write!(line, "{first}")?;
        push_later(&mut line, later)?;
    }
    line.push('\n')?;
    Ok(line)
}

/// Reads a document and prints the codewords of its symbol in decimal, or the line `refused NAME`. The side is looked
/// at first, then the input is read, at most 41,601 bytes of it, and then the document is encoded.
pub fn words_command<A: Allocator + Copy, R: Read, W: Write, E: Write>(
    alloc: A,
    streams: &mut Streams<R, W, E>,
    form: Form,
) -> u8
    ensures part { TakesPart streams.old.input.remaining streams.new.input.remaining DOCUMENT_BYTES }
    ensures ends { EndsWords form streams.old result streams.new }
{
    let symbol = match read_symbol(alloc, &mut streams.input, form) {
        Ok(symbol) => symbol,
        Err(refusal) => return refuse(&mut streams.output, refusal.name()),
    };
    match line_of_words(alloc, &symbol.words) {
        Ok(line) => status_after(streams.output.put(line.as_bytes())),
        Err(AllocError) => refuse(&mut streams.output, SymbolRefusal::Memory.name()),
    }
}

fn image_of_symbol<A: Allocator + Copy>(
    alloc: A,
    symbol: &Symbol<A>,
    plain: bool,
) -> Result<Image<A>, AllocError>
    requires { length symbol.now.words.items ≡ sizes.all_words symbol.now.size }
    ensures image { IfOk result (λ image.
        picture image ≡ image_with_quiet_zone (grid_of_words symbol.now.size symbol.now.words.items) plain) }
    ensures count { IfOk result (λ image. length image.pixels.items ≡ image.width * image.height) }
{
    let grid = draw_words(alloc, symbol.size, &symbol.words)?;
    image_of(alloc, &grid, plain)
}

/// Reads a document and draws its symbol as one PBM image, packed (`P4`) or plain (`P1`), inside a quiet zone one
/// pixel wide; a refusal is a line on the standard error. The side is looked at first, then the input is read, at most
/// 41,601 bytes of it, then the document is encoded and drawn: no byte is written before the whole image is made.
pub fn draw_command<A: Allocator + Copy, R: Read, W: Write, E: Write>(
    alloc: A,
    streams: &mut Streams<R, W, E>,
    form: Form,
    plain: bool,
) -> u8
    ensures part { TakesPart streams.old.input.remaining streams.new.input.remaining DOCUMENT_BYTES }
    ensures ends { EndsDraw form plain streams.old result streams.new }
{
    let symbol = match read_symbol(alloc, &mut streams.input, form) {
        Ok(symbol) => symbol,
        Err(refusal) => return refuse(&mut streams.errors, refusal.name()),
    };
    let Ok(image) = image_of_symbol(alloc, &symbol, plain) else {
        return refuse(&mut streams.errors, SymbolRefusal::Memory.name());
    };
    let put = image.write(&mut streams.output);
    status_after_bytes(&mut streams.errors, put)
}
