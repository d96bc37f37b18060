//! Texts as data codewords, and back.

use dm_encodation::{DecodeFault, Scheme, decode, encode, fit, need};
use dm_size::Size;
use std::alloc::Global;

// An encodation, a text, the codewords before it, a size, and the data codewords of the symbol, or the first of them.
// They are by the standard's tables, the pads by its 253-state algorithm, the bytes of Base 256 by that of 255 states.
type Text = (Scheme, &'static [u8], &'static [u8], Size, &'static [u8]);

#[rattlefmt::skip]
const TEXTS: [Text; 13] = [
    (Scheme::Ascii, b"123456", &[], Size::Side10, &[142, 164, 186]),
    (Scheme::Ascii, b"", &[], Size::Side10, &[129, 175, 70]),
    (Scheme::Ascii, b"A", &[], Size::Side10, &[66, 129, 70]),
    (Scheme::Ascii, b"A12B3", &[], Size::Side12, &[66, 142, 67, 52, 129]),
    (Scheme::C40, b"AIMAIMAIM", &[66], Size::Side14, &[66, 230, 91, 11, 91, 11, 91, 11]),
    (Scheme::C40, b"AIMAIMAIM", &[], Size::Side14, &[230, 91, 11, 91, 11, 91, 11, 129]),
    (Scheme::C40, b"AIMAIMAIM", &[66, 66, 66], Size::Side16, &[66, 66, 66, 230, 91, 11, 91, 11, 91, 11, 254, 129]),
    (Scheme::C40, b"AIMA", &[], Size::Side14, &[230, 91, 11, 254, 66, 129, 161, 56]),
    (Scheme::C40, b"ABX", &[], Size::Side10, &[230, 89, 254]),
    (Scheme::Text, b"aim", &[], Size::Side10, &[239, 91, 11]),
    (Scheme::Base256, &[1], &[233, 15, 1, 1], Size::Side14, &[233, 15, 1, 1, 231, 131, 25, 129]),
    (Scheme::Base256, b"", &[233, 31, 1, 1], Size::Side14, &[233, 31, 1, 1, 129, 11, 161, 56]),
    // From 250 bytes on the length has two codewords.
    (Scheme::Base256, &[0; 250], &[], Size::Side64, &[231, 38, 193]),
];

// Data codewords, and the text that they read as, or the fault at which they are stuck.
type Reading = (&'static [u8], &'static [u8], Option<DecodeFault>);

#[rattlefmt::skip]
const READINGS: [Reading; 11] = [
    (&[230, 91, 11, 254], b"AIM", None),
    (&[230, 91, 11, 66], b"AIMA", None),
    (&[230], b"", None),
    (&[231, 44, 2], b"A", None),
    (&[239, 91, 11], b"aim", None),
    (&[231, 45], b"", Some(DecodeFault::Cut { at: 1 })),
    (&[66, 235], b"", Some(DecodeFault::Cut { at: 2 })),
    (&[66, 232], b"", Some(DecodeFault::Unsupported { at: 2, word: 232 })),
    (&[142, 254], b"", Some(DecodeFault::Reserved { at: 2, word: 254 })),
    (&[230, 0, 0], b"", Some(DecodeFault::Reserved { at: 2, word: 0 })),
    (&[230, 250, 1], b"", Some(DecodeFault::Reserved { at: 2, word: 250 })),
];

// Whether a row of `TEXTS` is written so.
fn is_written(alloc: Global, (scheme, bytes, head, size, words): Text) -> bool {
    if head.len() > size.data_words() {
        return false;
    }
    match encode(alloc, scheme, bytes, head, size) {
        Ok(all) => all.starts_with(words),
        Err(_) => false,
    }
}

// Whether a row of `READINGS` is read so.
fn is_read(alloc: Global, (words, text, fault): Reading) -> bool {
    match decode(alloc, words, 0) {
        Ok(bytes) => fault.is_none() && bytes.as_slice() == text,
        Err(found) => fault == Some(found),
    }
}

#[test]
fn texts_are_written_and_read(rt: HostRuntime) {
    for (place, row) in TEXTS.iter().enumerate() {
        assert!(rt; is_written(rt.alloc(), *row), "{place}");
    }
    for (place, row) in READINGS.iter().enumerate() {
        assert!(rt; is_read(rt.alloc(), *row), "{place}");
    }
}

// How many times a byte fits a room of that many codewords, and how many codewords it then needs.
const ROOMS: [(Scheme, u8, usize, usize, usize); 12] = [
    (Scheme::Ascii, b'7', 1304, 2608, 1304),
    (Scheme::Ascii, b'A', 1304, 1304, 1304),
    (Scheme::Ascii, 233, 1304, 652, 1304),
    (Scheme::C40, b'A', 1304, 1953, 1303),
    (Scheme::Text, b'a', 1304, 1953, 1303),
    (Scheme::Base256, 233, 1304, 1301, 1304),
    (Scheme::Base256, 0, 0, 0, 0),
    (Scheme::Base256, 0, 3, 1, 3),
    (Scheme::Base256, 0, 251, 249, 251),
    (Scheme::Base256, 0, 253, 250, 253),
    (Scheme::Base256, 0, 1558, 1555, 1558),
    (Scheme::Base256, 0, 1559, 1556, 1559),
];

// A longer text may need fewer codewords: five characters need six codewords, and six of them five.
#[test]
fn a_longer_text_may_need_fewer_words(rt: HostRuntime) {
    assert!(rt; need(Scheme::C40, b"AIMAI") == 6 && need(Scheme::C40, b"AIMAIM") == 5);
    assert!(rt; fit(Scheme::C40, b"AIMAIM", 5) == 6);
}

#[test]
fn the_greatest_texts_fill_a_room(rt: HostRuntime) {
    for (scheme, byte, room, count, words) in ROOMS {
        let bytes = [byte; 2609];
        assert!(rt; count < bytes.len());
        let needed = need(scheme, &bytes[..count]);
        let fitting = fit(scheme, &bytes[..count + 1], room);
        assert!(rt; (fitting, needed) == (count, words), "{scheme:?} {count}");
    }
}
