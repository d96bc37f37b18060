//! The writing of images. A writer gets the header in one piece, a packed row in pieces of up to 256 pixels, and a plain
//! row line by line. The pieces are made on the stack.

ghost use Rattle.std.specs.Prelude.{◌≡◌, ◌≤◌, ◌*◌, true, [], ◌∷◌, ◌++◌, false, length, map, slice_index_or, OnOk, OnErr};
ghost use Rattle.std.specs.{Io.KnownBytes.Appends, Fmt.decimal};
ghost use Rattle.dm_pbm_io.specs.{Header.magic, Header.stride, Header.digit_of, inner.Streaming.AppendsText};
ghost use Rattle.dm_pbm_io.specs.Image.{picture, number_of_first, packed, plain_row, row_text, rows_text, written};
ghost use Rattle.relay_streams.specs.Streams.{AppendsPart, StaysFailed};

use crate::image::Image;
use crate::sink::ByteSink;
use arrayvec::{ArrayString, ArrayVec};
use itoa::Buffer;
use relay_streams::{Output, WriteFault};
use std::alloc::Allocator;
use std::io::Write;

// The most pixels of a packed row that are written at once: a symbol has no more in a row, and larger room takes longer
// to make.
const PACKED_PIXELS: usize = 256;

// The bytes of that many packed pixels.
const PACKED_BYTES: usize = 32;

// The most digits of a line of a plain row.
const LINE_DIGITS: usize = 70;

// The bytes of such a line, its end counted.
const LINE_BYTES: usize = 71;

// The header.
fn header_text(plain: bool, width: u16, height: u16) -> ArrayString<16>
    ensures { result.bytes ≡ magic plain ++ (10 ∷ (decimal width ++ (32 ∷ (decimal height ++ 10 ∷ [])))) }
{
    let mut digits = Buffer::new();
    let mut text = ArrayString::new();
    text.push_str(if plain { "P1\n" } else { "P4\n" });
    text.push_str(digits.format(width));
    text.push_str(" ");
    text.push_str(digits.format(height));
    text.push_str("\n");
    text
}

// Whether the k-th pixel of a row is black. Past its end they are light.
fn is_black(row: &[bool], k: usize) -> bool
    ensures { result ≡ slice_index_or row.now k false }
{
    k < row.len() && row[k]
}

// The factor that gathers eight bytes of 0 or 1 in the highest byte of the product. Its bits stand nine apart, so the
// byte at k goes to bit 63 - k; no two bits of the product meet, so nothing is carried.
const GATHER: u64 = 0x8040_2010_0804_0201;

// The byte of the first eight pixels of a row that has as many.
#[tactic(auto, using(crate::proofs::Eight::gathers_row))]
fn byte_of_eight(row: &[bool]) -> u8
    requires { 8 ≤ length row.now }
    ensures { result ≡ number_of_first 0 row.now 8 }
{
    let pixels = [
        u8::from(row[0]),
        u8::from(row[1]),
        u8::from(row[2]),
        u8::from(row[3]),
        u8::from(row[4]),
        u8::from(row[5]),
        u8::from(row[6]),
        u8::from(row[7]),
    ];
    (u64::from_le_bytes(pixels).wrapping_mul(GATHER) >> 56) as u8
}

// The byte of the pixels that are left of a row. Past its end they are light.
#[tactic(auto, using(crate::proofs::Eight::gathers_row))]
fn byte_of_rest(row: &[bool]) -> u8
    ensures { result ≡ number_of_first 0 row.now 8 }
{
    let pixels = [
        u8::from(is_black(row, 0)),
        u8::from(is_black(row, 1)),
        u8::from(is_black(row, 2)),
        u8::from(is_black(row, 3)),
        u8::from(is_black(row, 4)),
        u8::from(is_black(row, 5)),
        u8::from(is_black(row, 6)),
        u8::from(is_black(row, 7)),
    ];
    (u64::from_le_bytes(pixels).wrapping_mul(GATHER) >> 56) as u8
}

// The byte of the first eight pixels of a row.
fn byte_of(row: &[bool]) -> u8
    ensures { result ≡ number_of_first 0 row.now 8 }
{
    if row.len() < 8 {
        byte_of_rest(row)
    } else {
        byte_of_eight(row)
    }
}

// Packs a piece of a row into its bytes.
fn pack(piece: &[bool], bytes: &mut [u8])
    requires { length bytes.old ≡ stride (length piece.now) }
    ensures { bytes.new ≡ packed (stride (length piece.now)) piece.now }
{
    for at in 0..bytes.len() {
        bytes[at] = byte_of(&piece[8 * at..]);
    }
}

// Writes a piece of a packed row.
fn write_packed_piece<M, K: ByteSink<M>>(sink: &mut K, piece: &[bool]) -> Result<(), WriteFault>
    requires { length piece.now ≤ PACKED_PIXELS }
    ensures written { OnOk result
        (AppendsText (K.view sink.old) (K.view sink.new) (packed (stride (length piece.now)) piece.now)) }
    ensures part { AppendsPart (K.view sink.old).contents (K.view sink.new).contents
        (packed (stride (length piece.now)) piece.now) }
    ensures failed { OnErr result ((K.view sink.new).has_failed ≡ true) }
{
    let mut room = [0u8; PACKED_BYTES];
    let bytes = &mut room[..piece.len().div_ceil(8)];
    pack(piece, bytes);
    sink.put_text(bytes)
}

// Writes a packed row.
fn write_packed_row<M, K: ByteSink<M>>(sink: &mut K, row: &[bool]) -> Result<(), WriteFault>
    requires { length row.now ≤ u16.MAX }
    ensures written { OnOk result
        (AppendsText (K.view sink.old) (K.view sink.new) (packed (stride (length row.now)) row.now)) }
    ensures part { AppendsPart (K.view sink.old).contents (K.view sink.new).contents
        (packed (stride (length row.now)) row.now) }
    ensures failed { OnErr result ((K.view sink.new).has_failed ≡ true) }
{
    let mut rest = row;
    for piece in 0..row.len().div_ceil(PACKED_PIXELS) {
        let (front, later) = rest.split_at(rest.len().min(PACKED_PIXELS));
        write_packed_piece(sink, front)?;
        rest = later;
    }
    Ok(())
}

// The digit of a pixel.
fn digit_of(pixel: bool) -> u8
    ensures { result ≡ digit_of pixel }
{
    if pixel { b'1' } else { b'0' }
}

// The digits of a line of a plain row, and its end.
fn line_text(line: &[bool]) -> ArrayVec<u8, LINE_BYTES>
    requires { length line.now ≤ LINE_DIGITS }
    ensures { result.items ≡ map digit_of line.now ++ 10 ∷ [] }
{
    let mut text = ArrayVec::new();
    for i in 0..line.len() {
        text.push(digit_of(line[i]));
    }
    text.push(b'\n');
    text
}

// Writes a plain row, line by line.
fn write_plain_row<M, K: ByteSink<M>>(sink: &mut K, row: &[bool]) -> Result<(), WriteFault>
    requires { length row.now ≤ u16.MAX }
    ensures written { OnOk result (AppendsText (K.view sink.old) (K.view sink.new) (plain_row 0 row.now)) }
    ensures part { AppendsPart (K.view sink.old).contents (K.view sink.new).contents
        (plain_row 0 row.now) }
    ensures failed { OnErr result ((K.view sink.new).has_failed ≡ true) }
{
    let mut rest = row;
    for line in 0..row.len().div_ceil(LINE_DIGITS) {
        let (front, later) = rest.split_at(rest.len().min(LINE_DIGITS));
        sink.put_text(&line_text(front))?;
        rest = later;
    }
    Ok(())
}

// Writes a row in one of the two forms.
fn write_row<M, K: ByteSink<M>>(sink: &mut K, plain: bool, row: &[bool]) -> Result<(), WriteFault>
    requires { length row.now ≤ u16.MAX }
    ensures written { OnOk result
        (AppendsText (K.view sink.old) (K.view sink.new) (row_text plain (length row.now) row.now)) }
    ensures part { AppendsPart (K.view sink.old).contents (K.view sink.new).contents
        (row_text plain (length row.now) row.now) }
    ensures failed { OnErr result ((K.view sink.new).has_failed ≡ true) }
{
    if plain {
        write_plain_row(sink, row)
    } else {
        write_packed_row(sink, row)
    }
}

// Writes the rows of an image.
#[tactic(auto, using(std::proofs::lemmas::Grind::common_steps, crate::proofs::Streaming::adds_nil, crate::proofs::Written::rows_room))]
fn write_rows<M, K: ByteSink<M>>(
    sink: &mut K,
    plain: bool,
    width: usize,
    height: usize,
    pixels: &[bool],
) -> Result<(), WriteFault>
    requires width { width ≤ u16.MAX }
    requires height { height ≤ u16.MAX }
    requires pixels { length pixels.now ≡ width * height }
    ensures written { OnOk result
        (AppendsText (K.view sink.old) (K.view sink.new) (rows_text plain width height pixels.now)) }
    ensures part { AppendsPart (K.view sink.old).contents (K.view sink.new).contents
        (rows_text plain width height pixels.now) }
    ensures failed { OnErr result ((K.view sink.new).has_failed ≡ true) }
{
    let mut rest = pixels;
    for count in 0..height {
        let (row, below) = rest.split_at(width);
        write_row(sink, plain, row)?;
        rest = below;
    }
    Ok(())
}

// Writes an image in its own form.
fn write_to<M, K: ByteSink<M>, A: Allocator>(
    sink: &mut K,
    image: &Image<A>,
) -> Result<(), WriteFault>
    requires { length image.now.pixels.items ≡ image.now.width * image.now.height }
    ensures written { OnOk result (AppendsText (K.view sink.old) (K.view sink.new) (written (picture image.now))) }
    ensures part { AppendsPart (K.view sink.old).contents (K.view sink.new).contents
        (written (picture image.now)) }
    ensures failed { OnErr result ((K.view sink.new).has_failed ≡ true) }
    ensures stuck { K.is_stuck sink.old ≡ true
        → (result ≡ Err WriteFault.Write) × (K.view sink.new ≡ K.view sink.old) }
{
    let (width, height) = (usize::from(image.width), usize::from(image.height));
    let header = header_text(image.plain, image.width, image.height);
    sink.put_text(header.as_bytes())?;
    write_rows(sink, image.plain, width, height, image.pixels.as_slice())
}

/// Writes the image in its own form to any writer. No memory is taken.
///
/// Of a bare writer no contract can say that a write has failed. So here only tests limit the fault to a writer that
/// failed; [`Image::write`] proves it.
///
/// # Errors
/// As [`Image::write`].
pub fn write_image<W: Write, A: Allocator>(
    writer: &mut W,
    image: &Image<A>,
) -> Result<(), WriteFault>
    requires { length image.now.pixels.items ≡ image.now.width * image.now.height }
    ensures written { OnOk result
        (Appends (W.contents writer.old) (W.contents writer.new) (written (picture image.now))) }
    ensures part { AppendsPart (W.contents writer.old) (W.contents writer.new) (written (picture image.now)) }
{
    write_to(writer, image)
}

impl<A: Allocator> Image<A> {
    /// Writes the image in its own form. No memory is taken.
    ///
    /// # Errors
    /// `Write` where the writer fails or has failed before; a part of the bytes may have gone out, and nothing else.
    pub fn write<W: Write>(&self, output: &mut Output<W>) -> Result<(), WriteFault>
        requires { length self.now.pixels.items ≡ self.now.width * self.now.height }
        ensures written { OnOk result
            (Appends output.old.contents output.new.contents (written (picture self.now))) }
        ensures part { AppendsPart output.old.contents output.new.contents (written (picture self.now)) }
        ensures kept { OnOk result (output.new.has_failed ≡ output.old.has_failed) }
        ensures failed { OnErr result (output.new.has_failed ≡ true) }
        ensures stuck { StaysFailed output.old result output.new }
    {
        write_to(output, self)
    }
}
