use crate::{
    relay_image_from_words, relay_label_from_text, relay_page_from_image, relay_symbol_from_text,
    relay_text_from_image,
};
use std::alloc::Global;

// All codewords of the symbol of side 10 that carries the digits 123456, and its image.
const WORDS: [u8; 8] = [142, 164, 186, 114, 25, 5, 88, 102];

const IMAGE: &[u8] = b"P4\n12 12\n\
\x00\x00\x55\x40\x65\xa0\x60\x80\x63\xa0\x61\x00\x41\xe0\x76\x00\x7b\x20\x4e\x80\x7f\xe0\x00\x00";

// The same image in PBM's plain form.
const PLAIN: &[u8] = b"P1\n# a label\n12 12\n\
000000000000 010101010100 011001011010 011000001000 011000111010 011000010000\
010000011110 011101100000 011110110010 010011101000 011111111110 000000000000";

// The bytes of an image of side 132.
const LARGE: usize = 11 + 134 * 17;

// Whether the text of an image is this, which a room takes.
fn is_read(alloc: Global, image: &[u8], room: &mut [u8], wanted: &[u8]) -> bool {
    let count = relay_text_from_image(alloc, image, room);
    count == wanted.len() as isize && room.get(..wanted.len()) == Some(wanted)
}

#[test]
fn draws_and_reads_the_worked_example(rt: HostRuntime) {
    let mut image = [0; 33];
    assert!(rt; relay_symbol_from_text(rt.alloc(), 10, b"123456", &mut image) == 33);
    assert!(rt; image.as_slice() == IMAGE);
    let mut image = [0; 33];
    assert!(rt; relay_image_from_words(rt.alloc(), 10, &WORDS, &mut image) == 33);
    assert!(rt; image.as_slice() == IMAGE);
    for shown in [IMAGE, PLAIN] {
        assert!(rt; is_read(rt.alloc(), shown, &mut [0; 6], b"123456"));
    }
}

// `ABC` in C40, `abc` in Text and two bytes in Base 256, each with a pad, by the standard's tables; then error
// correction codewords, by the generator polynomial for 7.
#[rattlefmt::skip]
const OTHERS: [([u8; 12], &[u8]); 3] = [
    ([230, 89, 233, 254, 129, 133, 84, 179, 4, 52, 63, 208], b"ABC"),
    ([239, 89, 233, 254, 129, 90, 141, 133, 26, 64, 36, 227], b"abc"),
    ([231, 46, 192, 87, 129, 217, 80, 218, 224, 54, 149, 175], b"\xff\x00"),
];

#[test]
fn reads_the_other_encodations(rt: HostRuntime) {
    for (words, wanted) in OTHERS {
        let mut image = [0; 37];
        assert!(rt; relay_image_from_words(rt.alloc(), 12, &words, &mut image) == 37);
        assert!(rt; is_read(rt.alloc(), &image, &mut [0; 5], wanted));
    }
}

#[test]
fn draws_and_opens_a_label(rt: HostRuntime) {
    for (m, n) in [(1, 2), (2, 2), (16, 16)] {
        let mut image = [0; 100];
        let count = relay_label_from_text(rt.alloc(), 14, 64_515, m, n, b"seal", &mut image);
        assert!(rt; count == 9 + 2 * 16);
        // two modules of data, and one of the finder pattern
        image[9 + 2 * 3] ^= 0x18;
        image[9 + 2 * 14] ^= 0x40;
        let mut bytes = [0; 4];
        assert!(rt;
            relay_page_from_image(rt.alloc(), &image, &mut bytes) == 4 && &bytes == b"seal"
        );
    }
}

#[test]
fn draws_and_reads_each_side(rt: HostRuntime) {
    let mut sides = 0u8;
    for side in 0..=144 {
        let mut image = [0; LARGE];
        if relay_symbol_from_text(rt.alloc(), side, b"12", &mut image) > 0 {
            assert!(rt; is_read(rt.alloc(), &image, &mut [0; 2], b"12"));
            sides = sides.wrapping_add(1);
        }
    }
    assert!(rt; sides == 23);
}

// A symbol of the greatest side, and the same with a row of modules turned.
#[test]
fn reads_a_large_symbol_damaged(rt: HostRuntime) {
    let given = [b'7'; 2608];
    let mut image = [0; LARGE];
    assert!(rt; relay_symbol_from_text(rt.alloc(), 132, &given, &mut image) == LARGE as isize);
    for turned in [0, 0xff] {
        for at in 2..15usize {
            image[11 + 17 * 40 + at] ^= turned;
        }
        assert!(rt; is_read(rt.alloc(), &image, &mut [0; 2608], &given));
    }
}

// Labels that are refused: the side, the ID, the page m of n, its text, and the answer.
#[rattlefmt::skip]
const NO_LABELS: [(u16, u16, u8, u8, &[u8], isize); 10] = [
    (0, 0, 0, 0, b"", -1), (11, 0, 0, 0, b"", -1), (144, 0, 0, 0, b"", -1),
    (10, 64_516, 1, 2, b"", -3), (10, 0, 0, 2, b"", -3), (10, 0, 3, 2, b"", -3), (10, 0, 1, 1, b"", -3),
    (10, 0, 1, 17, b"", -3),
    (10, 0, 1, 2, b"", -4), (12, 0, 1, 2, b"123", -4),
];

#[test]
fn refuses_to_draw_a_label_and_writes_nothing(rt: HostRuntime) {
    let mut image = [7; 40];
    for (side, id, m, n, text, answer) in NO_LABELS {
        let count = relay_label_from_text(rt.alloc(), side, id, m, n, text, &mut image);
        assert!(rt; count == answer, "{side} {id} {m} {n}");
    }
    assert!(rt; image == [7; 40]);
}

#[test]
fn refuses_to_draw_and_writes_nothing(rt: HostRuntime) {
    let mut image = [7; 32];
    for (side, answer) in [(0, -1), (11, -1), (144, -1), (10, -4)] {
        assert!(rt; relay_symbol_from_text(rt.alloc(), side, b"1234567", &mut image) == answer);
    }
    for side in [0, 11, 144] {
        assert!(rt; relay_image_from_words(rt.alloc(), side, &WORDS, &mut image) == -1);
    }
    assert!(rt; relay_image_from_words(rt.alloc(), 10, &WORDS[..7], &mut image) == -2);
    assert!(rt; relay_symbol_from_text(rt.alloc(), 10, b"123456", &mut image) == -9);
    assert!(rt; image == [7; 32]);
}

// Whether a text and a page are refused by this answer, and nothing is written.
fn are_refused(alloc: Global, image: &[u8], answer: isize) -> bool {
    let mut text = [7; 5];
    relay_text_from_image(alloc, image, &mut text) == answer
        && relay_page_from_image(alloc, image, &mut text) == answer
        && text == [7; 5]
}

// The example with its first row turned, and with the eight rows after that.
const WORN: [&[u8]; 2] = [
    b"P4\n12 12\n\
\x00\x00\xaa\xbf\x65\xa0\x60\x80\x63\xa0\x61\x00\x41\xe0\x76\x00\x7b\x20\x4e\x80\x7f\xe0\x00\x00",
    b"P4\n12 12\n\
\x00\x00\x55\x40\x9a\x5f\x9f\x7f\x9c\x5f\x9e\xff\xbe\x1f\x89\xff\x84\xdf\xb1\x7f\x7f\xe0\x00\x00",
];

// What no image of a symbol is, and too many wrong modules.
#[test]
fn refuses_to_read_what_is_no_symbol_or_worn(rt: HostRuntime) {
    for none in [
        b"".as_slice(),
        b"P4",
        b"P5\n1 1\n\0",
        b"P4\n1 1\n\0",
        &IMAGE[..32],
    ] {
        assert!(rt; are_refused(rt.alloc(), none, -5));
    }
    for worn in WORN {
        assert!(rt; are_refused(rt.alloc(), worn, -6));
    }
}

// Codewords that are cut off, before error correction codewords by the generator polynomial for 10; a symbol that is no
// label, and no room for the text.
#[test]
fn refuses_to_read_and_writes_nothing(rt: HostRuntime) {
    let mut text = [7; 5];
    assert!(rt; relay_page_from_image(rt.alloc(), IMAGE, &mut text) == -7);
    assert!(rt; relay_text_from_image(rt.alloc(), IMAGE, &mut text) == -9);
    let mut cut = [0; 41];
    let words = [
        233, 15, 1, 1, 66, 67, 68, 235, 62, 228, 155, 25, 96, 175, 13, 241, 50, 5,
    ];
    assert!(rt; relay_image_from_words(rt.alloc(), 14, &words, &mut cut) == 41);
    assert!(rt; are_refused(rt.alloc(), &cut, -8));
    assert!(rt; relay_label_from_text(rt.alloc(), 14, 0, 1, 2, b"12", &mut cut) == 41);
    assert!(rt; relay_page_from_image(rt.alloc(), &cut, &mut text[..1]) == -9);
    assert!(rt; text == [7; 5]);
}
