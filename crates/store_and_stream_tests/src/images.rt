//! Images read and written: known images and refusals, and streams that fail in mid-stream or are interrupted.

ghost use Rattle.std.specs.Prelude.{◌≡◌, ◌*◌, IfOk, length};

use dm_finder_frame::LentGrid;
use dm_pbm_io::{
    Image, PbmFault, ShapeFault, grid_in, grid_of, image_in, image_of, read_image, write_image,
};
use relay_streams::{Input, Output};
use std::alloc::{AllocError, Global};
use std::io::Read;
use test_helpers::Faulty;

// The fault of an input, and whether its reader has failed.
fn fault_of<R: Read + Drop>(alloc: Global, reader: R) -> (Option<PbmFault>, bool) {
    let mut input = Input::new(reader);
    (Image::read(alloc, &mut input).err(), input.has_failed())
}

#[rattlefmt::skip]
const REFUSALS: [(&[u8], Option<PbmFault>); 16] = [
    (b"", None), (b"P", Some(PbmFault::Magic)), (b"P5", Some(PbmFault::Magic)), (b"P4", Some(PbmFault::Cut)),
    (b"P4 0 5\n", Some(PbmFault::Header)), (b"P4 0 ", Some(PbmFault::Header)), (b"P4 0", Some(PbmFault::Cut)),
    (b"P4 0#x", Some(PbmFault::Cut)), (b"P4 0#x\n", Some(PbmFault::Header)),
    (b"P4 99999999999999999999 1\n", Some(PbmFault::TooLarge)), (b"P4 1025 1\n", Some(PbmFault::TooLarge)),
    (b"P4 99999999999999999999 0\n", Some(PbmFault::Header)), (b"P4 9 2\n\x80\x00\x00", Some(PbmFault::Cut)),
    (b"P1 2 1\n12", Some(PbmFault::Pixel)), (b"P1# made by hand\n#\r2 1 #\n1 #0\n0 and more", None),
    (b"P1 2 1\n1 #0\n", Some(PbmFault::Cut)),
];

#[test]
fn bytes_are_refused(rt: HostRuntime) {
    let alloc = rt.alloc();
    for (bytes, fault) in REFUSALS {
        assert!(rt; image_in(alloc, bytes).err() == fault, "{bytes:?}");
        for passes in 0..bytes.len() + 1 {
            let ended = fault_of(alloc, Faulty::interrupted(bytes, passes));
            assert!(rt; ended == (fault, false), "{bytes:?} {passes}");
        }
    }
}

// The fault of these bytes and more of one kind, and how many of them are not read.
fn left_unread(
    alloc: Global,
    begin: &[u8],
    more: u8,
    count: usize,
) -> Result<(Option<PbmFault>, usize), AllocError> {
    let mut bytes = Vec::new(alloc);
    bytes.extend_from_slice(begin)?;
    let rest = vec![in alloc; more; count]?;
    bytes.extend_from_slice(&rest)?;
    let mut reader = bytes.as_slice();
    let fault = read_image(alloc, &mut reader).err();
    Ok((fault, reader.len()))
}

// A header has at most 4,096 bytes, and a plain raster 4,194,304. Nothing beyond is read.
#[test]
fn input_without_an_end_is_read_up_to_its_limit(rt: HostRuntime) {
    let header = left_unread(rt.alloc(), b"P4", b' ', 5_000).expect(&rt, "memory");
    assert!(rt; header == (Some(PbmFault::Header), 906));
    let remark = left_unread(rt.alloc(), b"P4 #", b'x', 5_000).expect(&rt, "memory");
    assert!(rt; remark == (Some(PbmFault::Header), 908));
    let raster = left_unread(rt.alloc(), b"P1 12 12\n#", b'x', 4_200_000).expect(&rt, "memory");
    assert!(rt; raster == (Some(PbmFault::TooLarge), 5_697));
}

// A black image of one row.
fn black_row(alloc: Global, width: u16, plain: bool) -> Result<Image, AllocError>
    ensures { IfOk result (λ image. length image.pixels.items ≡ image.width * image.height) }
{
    let pixels = vec![in alloc; true; usize::from(width)]?;
    Ok(Image {
        width,
        height: 1,
        pixels,
        plain,
    })
}

// Black rows, and what is written of them: a line of the plain form has at most 70 pixels.
const ROW_70: &[u8] =
    b"P1\n70 1\n1111111111111111111111111111111111111111111111111111111111111111111111\n";

const ROW_71: &[u8] =
    b"P1\n71 1\n1111111111111111111111111111111111111111111111111111111111111111111111\n1\n";

const ROWS: [(u16, bool, &[u8]); 3] = [
    (13, false, b"P4\n13 1\n\xff\xf8"),
    (70, true, ROW_70),
    (71, true, ROW_71),
];

// Whether an image is written to a writer that fails once, if it does not fail before the image's end; and else the
// bytes before are, and none after them.
fn is_written(alloc: Global, image: &Image, text: &[u8], passes: usize) -> bool
    requires { length image.now.pixels.items ≡ image.now.width * image.now.height }
{
    let is_whole = passes == text.len();
    let mut output = Output::new(Faulty::failing_once(Vec::new(alloc), passes));
    let is_told = image.write(&mut output).is_ok() == is_whole && output.has_failed() != is_whole;
    let is_kept = is_whole || image.write(&mut output).is_err();
    is_told && is_kept && Some(output.writer().taken()) == text.get(..passes)
}

// Whether a reader that fails is told as the fault, bare and as an input.
fn is_unread(alloc: Global, text: &[u8], passes: usize) -> bool {
    let mut bare = Faulty::failing(text, passes);
    let fault = read_image(alloc, &mut bare).err();
    let ended = fault_of(alloc, Faulty::failing(text, passes));
    fault == Some(PbmFault::Read) && ended == (Some(PbmFault::Read), true)
}

#[test]
fn rows_are_written_and_fail_in_mid_stream(rt: HostRuntime) {
    for (width, plain, text) in ROWS {
        let image = black_row(rt.alloc(), width, plain).expect(&rt, "it is done");
        for passes in 0..text.len() + 1 {
            assert!(rt;
                is_written(rt.alloc(), &image, text, passes),
                "writer, {passes}"
            );
        }
        // The last line end of a plain image is not read.
        for passes in 0..text.len() - 1 {
            assert!(rt; is_unread(rt.alloc(), text, passes), "reader, {passes}");
        }
    }
}

// The symbol of side 10 that carries the digits 123456, as the standard draws it, with a margin of one module.
const DRAWN: &[u8] =
    b"P1\n12 12\n000000000000\n010101010100\n011001011010\n011000001000\n011000111010\n011000010000\n\
010000011110\n011101100000\n011110110010\n010011101000\n011111111110\n000000000000\n";

const PACKED: &[u8] =
    b"P4\n12 12\n\x00\x00\x55\x40\x65\xa0\x60\x80\x63\xa0\x61\x00\x41\xe0\x76\x00\x7b\x20\x4e\x80\x7f\xe0\x00\x00";

// Whether a grid of side 10 is drawn so, inside the margin.
fn is_drawn(grid: &LentGrid) -> bool {
    let mut at = 22usize;
    for row in 0..10u16 {
        if grid.size().side() != 10 {
            return false;
        }
        for module in grid.row(row) {
            at = at.saturating_add(1);
            if DRAWN.get(at) != Some(if *module { &b'1' } else { &b'0' }) {
                return false;
            }
        }
        at = at.saturating_add(3);
    }
    true
}

// The text of the image of an image's grid, if both its grids are drawn so.
fn written(alloc: Global, image: &Image) -> Option<Vec<u8>> {
    let grid = grid_of(alloc, image).ok()?;
    if !is_drawn(&grid.lend()) || !is_drawn(&grid_in(image)?) {
        return None;
    }
    let image = image_of(alloc, &grid, image.plain).ok()?;
    let mut bytes = Vec::new(alloc);
    write_image(&mut bytes, &image).ok()?;
    Some(bytes)
}

#[test]
fn a_symbol_is_read_and_drawn(rt: HostRuntime) {
    for (text, plain) in [(DRAWN, true), (PACKED, false)] {
        let mut reader = text;
        let image = read_image(rt.alloc(), &mut reader).expect(&rt, "it is read");
        let image = image.expect(&rt, "an image");
        let written = written(rt.alloc(), &image).expect(&rt, "it is drawn");
        assert!(rt; image.plain == plain && written.as_slice() == text);
    }
}

// No symbol has 11 modules along a side, nor is a row a square.
#[test]
fn images_of_no_symbol_are_refused(rt: HostRuntime) {
    let alloc = rt.alloc();
    for (width, height, count) in [(13, 13, 169), (12, 11, 132), (12, 12, 143)] {
        let image = Image {
            width,
            height,
            pixels: vec![in alloc; true; count].expect(&rt, "it is done"),
            plain: false,
        };
        let fault = grid_of(alloc, &image).err();
        assert!(rt;
            fault == Some(ShapeFault::Shape) && grid_in(&image).is_none(),
            "{width} {height}"
        );
    }
}
