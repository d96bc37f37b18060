//! The rows of packed rasters, from a source to pixels.

ghost use Rattle.std.specs.Prelude.{◌≡◌, ℕ, ◌<◌, ◌≤◌, List, length, MatchResult};
ghost use Rattle.dm_pbm_io.specs.Header.{stride, pixels_of_row, HasNoByte};
ghost use Rattle.dm_pbm_io.specs.inner.Streaming.{TakesBytes, TakesUntil};

use crate::fault::PbmFault;
use crate::limits::GREATEST_SIDE;
use crate::source::{ByteSource, next_row};
use dm_placement::bits_of;

/// The most bytes of a row of a packed raster.
pub(crate) const ROW_BYTES: usize = 128;

// Draws the pixels of the bytes of a row.
fn draw_row(pixels: &mut [bool], row: &[u8])
    requires { length row.now ≡ stride (length pixels.old) }
    ensures { pixels.new ≡ pixels_of_row (length pixels.old) row.now }
{
    let whole = pixels.len() / 8;
    for at in 0..whole {
        pixels[8 * at..8 * at + 8].copy_from_slice(&bits_of(row[at]));
    }
    let rest = pixels.len() % 8;
    if rest != 0 {
        let bits = bits_of(row[whole]);
        pixels[8 * whole..].copy_from_slice(&bits[..rest]);
    }
}

/// Draws the next row of a packed raster over other pixels, by a room for its bytes. The image needs all of them.
pub(crate) fn draw_next<M, S: ByteSource<M>>(
    source: &mut S,
    room: &mut [u8; ROW_BYTES],
    pixels: &mut [bool],
) -> Result<(), PbmFault>
    requires { length pixels.old ≤ GREATEST_SIDE }
    ensures { MatchResult result
        (λ _. (row : List ℕ) × TakesBytes (S.view source.old) (S.view source.new) row
        × (length row ≡ stride (length pixels.old)) × (pixels.new ≡ pixels_of_row (length pixels.old) row))
        (λ fault. (part : List ℕ) × TakesUntil (S.view source.old) (S.view source.new) part fault
        × (length part < stride (length pixels.old)) × HasNoByte (S.view source.new).remaining fault) }
{
    let row = &mut room[..pixels.len().div_ceil(8)];
    next_row(source, row)?;
    draw_row(pixels, row);
    Ok(())
}
