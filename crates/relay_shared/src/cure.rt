//! Notes of refused images: which it is, and how it would be read, where another program has turned, mirrored, inverted
//! or enlarged it.

ghost use Rattle.std.specs.Prelude.{◌≡◌, ◌<◌, ◌≤◌, IfOk, IfSome, string_bytes};
ghost use Rattle.dm_pbm_io.specs.Image.{picture};
ghost use Rattle.relay_shared.specs.Command.{cure_text, EndsNote, IsCure, NotesImage, place_before};

use crate::lines::id_digits;
use dm_append_label::FileId;
use dm_finder_frame::Grid;
use dm_pbm_io::Image;
use dm_size::Size;
use dm_symbol::{Corrected, correct_grid};
use itoa::Buffer;
use relay_streams::Output;
use std::alloc::{AllocError, Allocator};
use std::io::Write;

// How an image is changed: reduced, mirrored, turned clockwise and inverted.
#[derive(Clone, Copy)]
struct Cure {
    scale: u16,
    mirrored: bool,
    turns: usize,
    inverted: bool,
}

// The place before the change of the pixel that comes to row r and column c, of which `last` is the last.
fn place_of(cure: Cure, width: u16, last: u16, r: u16, c: u16) -> usize
    requires { (cure.turns < 4) × (r ≤ last) × (c ≤ last) }
    ensures { result ≡ place_before cure width last r c }
{
    let (r, c) = [(r, c), (last - c, r), (last - r, last - c), (c, last - r)][cure.turns];
    let c = if cure.mirrored { last - c } else { c };
    let scale = usize::from(cure.scale);
    let row = usize::from(r) * scale + scale / 2;
    row * usize::from(width) + usize::from(c) * scale + scale / 2
}

// The symbol in an image after the change. Where there is no memory, there is none.
fn symbol_after<A: Allocator + Copy>(alloc: A, image: &Image<A>, cure: Cure) -> Option<Corrected>
    requires { (cure.turns < 4) × (1 ≤ cure.scale) × (cure.scale ≤ 16) }
    ensures { IfSome result (λ _. IsCure (picture image.now) cure) }
{
    let size = Size::of_side((image.width / cure.scale).checked_sub(2)?)?;
    let side = size.side();
    if image.width != image.height || (side + 2) * cure.scale != image.width {
        return None;
    }
    let mut modules = Vec::new(alloc);
    for i in 0..side * side {
        let place = place_of(cure, image.width, side + 1, i / side + 1, i % side + 1);
        let pixel = image.pixels.get(place).copied().unwrap_or(false);
        modules.push(pixel ^ cure.inverted).ok()?;
    }
    correct_grid(&Grid::from_modules(size, modules).lend()).ok()
}

fn text_of<A: Allocator + Copy>(alloc: A, cure: Cure) -> Result<String<A>, AllocError>
    requires { cure.turns < 4 }
    ensures { IfOk result (λ text. string_bytes text ≡ cure_text cure) }
{
    let inverted = if cure.inverted { "inverted, " } else { "" };
    let mirrored = if cure.mirrored { "mirrored, " } else { "" };
    let turned = ["", "turned right, ", "turned round, ", "turned left, "][cure.turns];
    let scale = cure.scale;
    if scale == 1 {
        return format!(in alloc; "; {inverted}{mirrored}{turned}it reads");
    }
    format!(in alloc; "; {inverted}{mirrored}{turned}reduced {scale} times, it reads")
}

/// What a note of a refusal ends with: the first change after which the image would be read, or nothing. None is tried
/// where the refusal isn't of the image itself, and a lack of memory is no change.
pub fn note_ending<A: Allocator + Copy>(alloc: A, image: &Image<A>, is_of_image: bool) -> String<A>
    ensures { EndsNote is_of_image (picture image.now) (string_bytes result) }
{
    let changes = if is_of_image { 256 } else { 1 };
    for number in 1..changes {
        let cure = Cure {
            scale: number / 16 + 1,
            mirrored: number / 8 % 2 == 1,
            turns: usize::from(number / 2 % 4),
            inverted: number % 2 == 1,
        };
        if symbol_after(alloc, image, cure).is_some() {
            return text_of(alloc, cure).unwrap_or(String::new(alloc));
        }
    }
    String::new(alloc)
}

/// Notes which image was refused, counted from 1, and which label it is, if that is known. If the standard error fails,
/// the note is lost, and the command goes on.
pub fn put_image_note<E: Write>(
    errors: &mut Output<E>,
    number: u32,
    id: Option<FileId>,
    name: &str,
    ending: &str,
)
    ensures { NotesImage number id name.now ending.now errors.old errors.new }
{
    let start: &[u8] = b"relay: image ";
    let mut digits = Buffer::new();
    let number = digits.format(number).as_bytes();
    let (name, ending) = (name.as_bytes(), ending.as_bytes());
    let _ = match id {
        Some(id) => {
            let id = id_digits(id);
            errors.put_all(&[start, number, b" (", &id, b"): ", name, ending, b"\n"])
        }
        None => errors.put_all(&[start, number, b": ", name, ending, b"\n"]),
    };
}
