//! Images, between grids and bytes.

ghost use Rattle.std.specs.Prelude.{◌≡◌, ◌⊎◌, ℕ, List, IfOk, MatchResult};
ghost use Rattle.dm_pbm_io.specs.Image.{p4, picture};
ghost use Rattle.relay_symbols.specs.Symbols.{BeginsWithPicture, ShowsGrid, ShowsNone};
ghost use Rattle.relay_symbols.specs.declared.refusal.Refusal.TheVariants.{NoSymbol, NoMemory};

use crate::refusal::Refusal;
use dm_finder_frame::{Grid, LentGrid};
use dm_pbm_io::laws::{not_refused, one_image};
use dm_pbm_io::{Image, PbmFault, grid_in, image_in, image_of, write_image};
use std::alloc::{AllocError, Allocator};

// Room for the header of the greatest image, a packed one of side 132.
const HEADER_ROOM: usize = 11;

/// The bytes of a grid's image.
pub(crate) fn grid_image<A: Allocator + Copy>(
    alloc: A,
    grid: &Grid<A>,
) -> Result<Vec<u8, A>, AllocError>
    ensures { IfOk result (λ bytes. bytes.items ≡ p4 grid.now) }
{
    let image = image_of(alloc, grid, false)?;
    let width = usize::from(image.width);
    let mut bytes = Vec::with_capacity(alloc, HEADER_ROOM + width.div_ceil(8) * width)?;
    match write_image(&mut bytes, &image) {
        Ok(()) => Ok(bytes),
        Err(_) => Err(AllocError),
    }
}

/// The image that the bytes begin with.
pub(crate) fn image_from<A: Allocator + Copy>(alloc: A, bytes: &[u8]) -> Result<Image<A>, Refusal>
    ensures { MatchResult result (λ image. BeginsWithPicture bytes.now (picture image))
        (λ refusal. ((refusal ≡ NoSymbol) × ShowsNone bytes.now) ⊎ (refusal ≡ NoMemory)) }
{
    not_refused();
    match image_in(alloc, bytes) {
        Ok(Some(image)) => Ok(image),
        Ok(None) => Err(Refusal::NoSymbol),
        Err(PbmFault::Memory) => Err(Refusal::NoMemory),
        Err(_) => Err(Refusal::NoSymbol),
    }
}

/// The grid inside the quiet zone of an image that bytes begin with, lent from the image.
pub(crate) fn lent_grid<A: Allocator>(image: &Image<A>) -> Result<LentGrid<'_>, Refusal>
    ensures { (bytes : List ℕ) → BeginsWithPicture bytes (picture image.now) → MatchResult result (ShowsGrid bytes)
        (λ refusal. (refusal ≡ NoSymbol) × ShowsNone bytes) }
{
    one_image();
    match grid_in(image) {
        Some(grid) => Ok(grid),
        None => Err(Refusal::NoSymbol),
    }
}
