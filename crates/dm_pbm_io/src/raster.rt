//! The rasters of packed and plain images.

ghost use Rattle.std.specs.Prelude.{◌≡◌, ℕ, ◌*◌, ◌<◌, ◌≤◌, List, length, MatchResult, MatchOption, false};
ghost use Rattle.dm_pbm_io.specs.Header.{digit_of, is_pixel_digit, IsPackedRaster, IsPlainRaster, StopsInPlain, StopsInPacked};
ghost use Rattle.dm_pbm_io.specs.inner.Streaming.{TakesBytes, TakesUntil};

use crate::fault::PbmFault;
use crate::header::{is_hidden, is_white};
use crate::limits::{GREATEST_SIDE, PLAIN_BYTES};
use crate::packed::{ROW_BYTES, draw_next};
use crate::source::{ByteSource, next_byte};

// The pixel that a digit stands for.
fn pixel_of(sign: u8) -> Option<bool>
    ensures { MatchOption result (is_pixel_digit sign ≡ false) (λ pixel. sign ≡ digit_of pixel) }
{
    match sign {
        b'0' => Some(false),
        b'1' => Some(true),
        _ => None,
    }
}

/// The plain raster, drawn over other pixels.
pub(crate) fn read_plain<M, S: ByteSource<M>>(
    source: &mut S,
    pixels: &mut [bool],
) -> Result<(), PbmFault>
    requires { 0 < length pixels.old }
    ensures { MatchResult result
        (λ _. (raster : List ℕ) × TakesBytes (S.view source.old) (S.view source.new) raster
        × IsPlainRaster raster (length pixels.old) pixels.new)
        (λ fault. (raster : List ℕ) × TakesUntil (S.view source.old) (S.view source.new) raster fault
        × StopsInPlain raster (length pixels.old) (S.view source.new).remaining fault) }
{
    let mut inside = false;
    let mut drawn = 0;
    for taken in 0..PLAIN_BYTES {
        let byte = next_byte(source)?;
        inside = is_hidden(inside, byte);
        if inside {
            continue;
        }
        if is_white(byte) {
            continue;
        }
        let Some(pixel) = pixel_of(byte) else {
            return Err(PbmFault::Pixel);
        };
        pixels[drawn] = pixel;
        drawn += 1;
        if drawn == pixels.len() {
            return Ok(());
        }
    }
    Err(PbmFault::TooLarge)
}

/// The packed raster of `height` rows, drawn over other pixels.
pub(crate) fn read_packed<M, S: ByteSource<M>>(
    source: &mut S,
    pixels: &mut [bool],
    width: usize,
    height: usize,
) -> Result<(), PbmFault>
    requires width { width ≤ GREATEST_SIDE }
    requires height { height ≤ GREATEST_SIDE }
    requires count { length pixels.old ≡ width * height }
    ensures { MatchResult result
        (λ _. (raster : List ℕ) × TakesBytes (S.view source.old) (S.view source.new) raster
        × IsPackedRaster raster width height pixels.new)
        (λ fault. (raster : List ℕ) × TakesUntil (S.view source.old) (S.view source.new) raster fault
        × StopsInPacked raster width height (S.view source.new).remaining fault) }
{
    let mut room = [0; ROW_BYTES];
    for row in 0..height {
        draw_next(
            source,
            &mut room,
            &mut pixels[row * width..row * width + width],
        )?;
    }
    Ok(())
}
