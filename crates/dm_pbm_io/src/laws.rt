//! The laws of reading and writing.

ghost use Rattle.std.specs.Prelude.{Bool, ◌≡◌};
ghost use Rattle.dm_finder_frame.specs.Frame.{GridView, IsWholeGrid};
ghost use Rattle.dm_pbm_io.specs.Image.{Picture};
ghost use Rattle.dm_pbm_io.specs.Laws.{HasOneImage, IsNotRefused, IsReadable, IsReadBack, IsTakenBack, IsWrittenReadable};

use crate::limits::{GREATEST_SIDE, HEADER_BYTES, PLAIN_BYTES};

/// The limits by number: no definition moves with a constant.
pub fn limits_by_number()
    ensures side { GREATEST_SIDE ≡ 1024 }
    ensures header { HEADER_BYTES ≡ 4096 }
    ensures plain { PLAIN_BYTES ≡ 4194304 }
{}

/// What is written for an image that can be read begins with a spelling of that image.
#[tactic(auto, using(crate::proofs::RoundTrip::written_readable))]
pub fn written_is_readable()
    ensures { IsWrittenReadable }
{}

/// No image's spelling begins another's, and a spelling spells one image.
pub fn one_image()
    ensures { HasOneImage }
{}

/// What begins with an image's spelling is not refused for its bytes.
pub fn not_refused()
    ensures { IsNotRefused }
{}

/// What is written for an image is read as that image.
pub fn read_back()
    ensures { (p : Picture) → IsReadable p → IsReadBack p }
{}

/// The grid inside the quiet zone of a grid's image is that grid.
pub fn taken_back()
    ensures { (g : GridView) (plain : Bool) → IsWholeGrid g → IsTakenBack g plain }
{}
