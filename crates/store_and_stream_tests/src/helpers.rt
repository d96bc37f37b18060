//! Which copies are spoiled.

use test_helpers::{count, spoiled};

const COPIES: [&str; 12] = [
    "", "a", "bb", "zb", "\0b", "aa", "az", "zab", "azb", "abz", "aab", "abb",
];

const NO_COPIES: [&str; 5] = ["b", "ba", "abab", "zz", "abcd"];

// Whether a text is among copies.
fn has(copies: &[Vec<u8>], text: &str) -> bool {
    for copy in copies {
        if copy.as_slice() == text.as_bytes() {
            return true;
        }
    }
    false
}

#[test]
fn two_bytes_are_spoiled_and_counted(rt: HostRuntime) {
    let copies = spoiled(rt.alloc(), b"ab").expect(&rt, "it is done");
    // Two cuts, two places where a byte is changed, and three where one is added.
    assert!(rt; copies.len() == 2 + 2 * 256 + 3 * 256);
    let mut counts = [0; 2];
    for (texts, are_copies) in [(COPIES.as_slice(), true), (NO_COPIES.as_slice(), false)] {
        for text in texts {
            assert!(rt; has(&copies, *text) == are_copies, "{text}");
            count(&mut counts, &["a", "b"], *text);
        }
    }
    assert!(rt; counts == [1, 1]);
}
