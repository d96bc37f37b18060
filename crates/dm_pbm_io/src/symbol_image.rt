//! From a grid to its image, inside a quiet zone one pixel wide, and back.

ghost use Rattle.std.specs.Prelude.{◌≡◌, ◌+◌, ◌*◌, ◌<◌, IfOk, IsErrOf, MatchOption, length};
ghost use Rattle.dm_size.specs.Sizes as sizes;
ghost use Rattle.dm_finder_frame.specs.Frame.{square_of};
ghost use Rattle.dm_pbm_io.specs.Image.{HasShape, IsGridInside, image_with_quiet_zone, picture};
ghost use Rattle.dm_pbm_io.specs.inner.Streaming.{IsDrawnTo};

use crate::fault::ShapeFault;
use crate::image::Image;
use dm_finder_frame::{Grid, LentGrid};
use dm_size::Size;
use std::alloc::{AllocError, Allocator};

// Draws a row of a grid into the light pixels of its image.
fn draw_row<B: Allocator>(grid: &Grid<B>, row: u16, pixels: &mut [bool])
    requires row_in { row < sizes.side grid.now.size }
    requires above { IsDrawnTo (square_of grid.now) (sizes.side grid.now.size + 2) row pixels.old }
    ensures { IsDrawnTo (square_of grid.now) (sizes.side grid.now.size + 2) (row + 1) pixels.new }
{
    let side = grid.size().side() as usize;
    let start = (row as usize + 1) * (side + 2) + 1;
    pixels[start..start + side].copy_from_slice(grid.lend().row(row));
}

/// The image of a grid: one pixel per module, inside a quiet zone of one light pixel on each side.
///
/// # Errors
/// Where the allocator refuses its memory.
pub fn image_of<A: Allocator + Copy, B: Allocator>(
    alloc: A,
    grid: &Grid<B>,
    plain: bool,
) -> Result<Image<A>, AllocError>
    ensures image { IfOk result (λ image. picture image ≡ image_with_quiet_zone grid.now plain) }
    ensures count { IfOk result (λ image. length image.pixels.items ≡ image.width * image.height) }
{
    let side = grid.size().side();
    let width = side + 2;
    let mut pixels = vec![in alloc; false; width as usize * width as usize]?;
    for row in 0..side {
        draw_row(grid, row, &mut pixels);
    }
    Ok(Image {
        width,
        height: width,
        pixels,
        plain,
    })
}

/// The grid of the pixels inside the quiet zone, one pixel wide on each side, whose own pixels aren't looked at, lent
/// from the image. There is none where the image isn't square, its side less the quiet zone is not one of the 23, or it
/// hasn't width * height pixels.
pub fn grid_in<A: Allocator>(image: &Image<A>) -> Option<LentGrid<'_>>
    ensures { MatchOption result (HasShape (picture image.now) → ⊥)
        (λ grid. HasShape (picture image.now) × IsGridInside (picture image.now) grid) }
{
    let width = image.width as usize;
    let count = width * image.height as usize;
    if image.width != image.height || image.pixels.len() != count {
        return None;
    }
    let size = Size::of_side(image.width.checked_sub(2)?)?;
    Some(LentGrid::from_rows(size, &image.pixels[width + 1..], width))
}

/// The same grid, in memory of its own.
///
/// # Errors
/// `Shape` where the image has none; `Memory` where the allocator refuses.
pub fn grid_of<A: Allocator + Copy, B: Allocator>(
    alloc: A,
    image: &Image<B>,
) -> Result<Grid<A>, ShapeFault>
    ensures grid { IfOk result (λ grid. HasShape (picture image.now) × IsGridInside (picture image.now) grid) }
    ensures shape { IsErrOf result ShapeFault.Shape → HasShape (picture image.now) → ⊥ }
    ensures memory { IsErrOf result ShapeFault.Memory → HasShape (picture image.now) }
{
    let Some(grid) = grid_in(image) else {
        return Err(ShapeFault::Shape);
    };
    Ok(grid.copy(alloc)?)
}
