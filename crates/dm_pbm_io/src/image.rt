//! Images, and their reading.

ghost use Rattle.std.specs.Prelude.{◌≡◌, ◌<◌, ◌≤◌, ◌*◌, ℕ, List, [], ◌∷◌, ◌++◌, length, Some, IsErrOf, MatchResult, MatchOption, ◌⊎◌, true};
ghost use Rattle.dm_pbm_io.specs.Header.{magic, StopsInRaster};
ghost use Rattle.dm_pbm_io.specs.Image.{IsNoMagic, IsRaster, ReadsImage, Spells, SpellsAfterMagic, Refuses, RefusesAfterMagic, picture};
ghost use Rattle.dm_pbm_io.specs.inner.Streaming.{FindsEnd, TakesBytes, TakesUntil};

use crate::fault::PbmFault;
use crate::header::read_size;
use crate::limits::GREATEST_SIDE;
use crate::raster::{read_packed, read_plain};
use crate::source::{ByteSource, InMemory, read_byte};
use relay_streams::Input;
use std::alloc::{Allocator, Global};
use std::io::Read;

/// An image of black and white pixels, row by row; true is black.
#[derive(Drop)]
pub struct Image<A: Allocator = Global> {
    pub width: u16,
    pub height: u16,
    pub pixels: Vec<bool, A>,
    /// Whether its form is plain (`P1`), and not packed (`P4`).
    pub plain: bool,
}

// Whether the two bytes begin an image of a plain raster.
fn magic_of(first: u8, second: u8) -> Option<bool>
    ensures { MatchOption result (IsNoMagic first second) (λ plain. first ∷ second ∷ [] ≡ magic plain) }
{
    if first != b'P' {
        return None;
    }
    match second {
        b'1' => Some(true),
        b'4' => Some(false),
        _ => None,
    }
}

// Whether an image of a plain raster begins, or `None` at the end of the input.
fn read_magic<M, S: ByteSource<M>>(source: &mut S) -> Result<Option<bool>, PbmFault>
    ensures { MatchResult result
        (λ found. MatchOption found (FindsEnd (S.view source.old) (S.view source.new))
        (λ plain. TakesBytes (S.view source.old) (S.view source.new) (magic plain)))
        (λ fault. (taken : List ℕ) × TakesUntil (S.view source.old) (S.view source.new) taken fault
        × Refuses fault taken (S.view source.new).remaining) }
{
    let Some(first) = read_byte(source)? else {
        return Ok(None);
    };
    let Some(second) = read_byte(source)? else {
        return Err(PbmFault::Magic);
    };
    match magic_of(first, second) {
        Some(plain) => Ok(Some(plain)),
        None => Err(PbmFault::Magic),
    }
}

// The pixels of an image, drawn over other pixels.
fn read_raster<M, S: ByteSource<M>>(
    source: &mut S,
    pixels: &mut [bool],
    plain: bool,
    width: u16,
    height: u16,
) -> Result<(), PbmFault>
    requires width { (0 < width) × (width ≤ GREATEST_SIDE) }
    requires height { (0 < height) × (height ≤ GREATEST_SIDE) }
    requires count { length pixels.old ≡ width * height }
    ensures { MatchResult result
        (λ _. (raster : List ℕ) × TakesBytes (S.view source.old) (S.view source.new) raster
        × IsRaster plain raster width height pixels.new)
        (λ fault. (raster : List ℕ) × TakesUntil (S.view source.old) (S.view source.new) raster fault
        × StopsInRaster plain raster width height (S.view source.new).remaining fault) }
{
    if plain {
        read_plain(source, pixels)
    } else {
        read_packed(source, pixels, usize::from(width), usize::from(height))
    }
}

// The image after its magic number.
fn read_after_magic<M, S: ByteSource<M>, A: Allocator + Copy>(
    alloc: A,
    source: &mut S,
    plain: bool,
) -> Result<Image<A>, PbmFault>
    ensures { MatchResult result
        (λ image. (taken : List ℕ) × TakesBytes (S.view source.old) (S.view source.new) taken
        × SpellsAfterMagic taken (picture image) × (image.plain ≡ plain))
        (λ fault. (taken : List ℕ) × TakesUntil (S.view source.old) (S.view source.new) taken fault
        × RefusesAfterMagic plain fault taken (S.view source.new).remaining) }
{
    let (width, height) = read_size(source)?;
    if width > GREATEST_SIDE || height > GREATEST_SIDE {
        return Err(PbmFault::TooLarge);
    }
    let count = usize::from(width) * usize::from(height);
    let Ok(mut pixels) = vec![in alloc; false; count] else {
        return Err(PbmFault::Memory);
    };
    read_raster(source, &mut pixels, plain, width, height)?;
    Ok(Image {
        width,
        height,
        pixels,
        plain,
    })
}

// The next image of a source, or `None` at its end. No byte after the image is taken.
fn read_from<M, S: ByteSource<M>, A: Allocator + Copy>(
    alloc: A,
    source: &mut S,
) -> Result<Option<Image<A>>, PbmFault>
    ensures { MatchResult result
        (λ found. MatchOption found (FindsEnd (S.view source.old) (S.view source.new))
        (λ image. (taken : List ℕ) × TakesBytes (S.view source.old) (S.view source.new) taken
        × Spells taken (picture image)))
        (λ fault. (taken : List ℕ) × TakesUntil (S.view source.old) (S.view source.new) taken fault
        × Refuses fault taken (S.view source.new).remaining) }
{
    let Some(plain) = read_magic(source)? else {
        return Ok(None);
    };
    let image = read_after_magic(alloc, source, plain)?;
    Ok(Some(image))
}

/// The next image, or `None` at the end of the input, from any reader. No byte after the image is taken.
///
/// Of a bare reader no contract can say that a read has failed. So here only tests limit the fault `Read` to a reader
/// that failed; [`Image::read`] proves it.
///
/// # Errors
/// As [`Image::read`].
pub fn read_image<R: Read, A: Allocator + Copy>(
    alloc: A,
    reader: &mut R,
) -> Result<Option<Image<A>>, PbmFault>
    ensures { ReadsImage (R.remaining reader.old) (R.remaining reader.new) result }
{
    read_from(alloc, reader)
}

/// The image that the bytes begin with, or `None` of no bytes.
///
/// # Errors
/// As [`Image::read`], but for `Read`, which does not come.
pub fn image_in<A: Allocator + Copy>(alloc: A, bytes: &[u8]) -> Result<Option<Image<A>>, PbmFault>
    ensures image { MatchResult result
        (λ found. MatchOption found (bytes.now ≡ [])
        (λ image. (taken : List ℕ) × (rest : List ℕ) × (bytes.now ≡ taken ++ rest) × Spells taken (picture image)))
        (λ fault. (taken : List ℕ) × (rest : List ℕ) × (bytes.now ≡ taken ++ rest)
        × Refuses fault taken (Some rest)) }
    ensures never_failed { IsErrOf result PbmFault.Read → ⊥ }
{
    let mut source = bytes;
    read_from::<InMemory, &[u8], A>(alloc, &mut source)
}

impl<A: Allocator + Copy> Image<A> {
    /// The next image, or `None` at the end of the input. No byte after the image is taken.
    ///
    /// # Errors
    /// `Magic`, `Header`, `TooLarge`, `Cut` and `Pixel` at the first byte with which no image goes on, or at the end
    /// of the input inside an image; `Memory` after the header, where the allocator refuses the pixels; `Read` where a
    /// read failed.
    pub fn read<R: Read>(alloc: A, input: &mut Input<R>) -> Result<Option<Image<A>>, PbmFault>
        ensures read { ReadsImage input.old.remaining input.new.remaining result }
        ensures failed { IsErrOf result PbmFault.Read → input.new.has_failed ≡ true }
        ensures kept { IsErrOf result PbmFault.Read ⊎ (input.new.has_failed ≡ input.old.has_failed) }
    {
        read_from(alloc, input)
    }
}
