//! The sizes, the codewords of a symbol in their blocks, and blocks that are corrected.

use dm_check_blocks::{block_word, complete};
use dm_corrector::{BlockFault, correct_symbol};
use dm_size::Size;

// The standard's table: the side, a region's side, the regions, data codewords, error correction codewords, blocks.
#[rattlefmt::skip]
const SIZES: [[usize; 6]; 23] = [
    [ 10,  8,  1,    3,   5, 1],
    [ 12, 10,  1,    5,   7, 1],
    [ 14, 12,  1,    8,  10, 1],
    [ 16, 14,  1,   12,  12, 1],
    [ 18, 16,  1,   18,  14, 1],
    [ 20, 18,  1,   22,  18, 1],
    [ 22, 20,  1,   30,  20, 1],
    [ 24, 22,  1,   36,  24, 1],
    [ 26, 24,  1,   44,  28, 1],
    [ 32, 14,  4,   62,  36, 1],
    [ 36, 16,  4,   86,  42, 1],
    [ 40, 18,  4,  114,  48, 1],
    [ 44, 20,  4,  144,  56, 1],
    [ 48, 22,  4,  174,  68, 1],
    [ 52, 24,  4,  204,  84, 2],
    [ 64, 14, 16,  280, 112, 2],
    [ 72, 16, 16,  368, 144, 4],
    [ 80, 18, 16,  456, 192, 4],
    [ 88, 20, 16,  576, 224, 4],
    [ 96, 22, 16,  696, 272, 4],
    [104, 24, 16,  816, 336, 6],
    [120, 18, 36, 1050, 408, 6],
    [132, 20, 36, 1304, 496, 8],
];

// What the table says of a size.
fn row_of(size: Size) -> [usize; 6] {
    [
        usize::from(size.side()),
        usize::from(size.region()),
        usize::from(size.regions()),
        size.data_words(),
        size.check_words(),
        size.blocks(),
    ]
}

// Whether the parts of side 52 are those of the standard.
fn is_side_52() -> bool {
    let size = Size::Side52;
    (size.across(), size.mapping(), size.limit()) == (2, 48, 21)
        && (size.block_data(), size.block_checks(), size.block_length()) == (102, 42, 144)
        && (size.all_words(), block_word(size, 1, 102)) == (288, 205)
}

#[test]
fn the_sizes_are_those_of_the_standard(rt: HostRuntime) {
    let mut count = 0;
    for side in 0..200u16 {
        if let Some(size) = Size::of_side(side) {
            assert!(rt;
                count < SIZES.len() && row_of(size) == SIZES[count],
                "side {side}"
            );
            count += 1;
        }
    }
    assert!(rt; count == SIZES.len() && is_side_52());
}

// The standard's worked example, and a symbol of two blocks: its last data codeword belongs to block 1, so the error
// correction codewords of block 0 stay 0, and none of block 1's is.
#[test]
#[tactic(auto, unfolding(dm_size::specs::Sizes::row))]
fn messages_are_completed(rt: HostRuntime) {
    let words = complete(rt.alloc(), Size::Side10, &[142, 164, 186]).expect(&rt, "it is done");
    assert!(rt; words.as_slice() == [142, 164, 186, 114, 25, 5, 88, 102].as_slice());
    let mut message = [0; 204];
    message[203] = 1;
    let words = complete(rt.alloc(), Size::Side52, &message).expect(&rt, "it is done");
    assert!(rt; words.len() == 288);
    for (at, word) in words.iter().enumerate() {
        assert!(rt; (*word != 0) == (at >= 203 && at % 2 == 1), "position {at}");
    }
}

// In side 52, whose blocks take the codewords in turn, there are 21 wrong codewords in each of two blocks, and then 22
// in the second.
#[test]
#[tactic(auto, unfolding(dm_size::specs::Sizes::row))]
fn blocks_are_corrected(rt: HostRuntime) {
    let mut words = [0; 288];
    for k in 0..42u8 {
        words[k as usize * 5] = k + 1;
    }
    let mut more = words;
    more[3] = 1;
    assert!(rt; correct_symbol(Size::Side52, &mut words) == Ok(42) && words == [0; 288]);
    assert!(rt; correct_symbol(Size::Side52, &mut more) == Err(BlockFault { block: 1 }));
}

// The generator polynomial for 42 error correction codewords, which the standard prints.
#[rattlefmt::skip]
const GENERATOR: [u8; 43] = [
    1, 5, 9, 5, 226, 177, 150, 50, 69, 202, 248, 101, 54, 57, 253, 1, 21, 121, 57, 111, 214, 105, 167, 9, 100, 95, 175,
    8, 242, 133, 245, 2, 122, 105, 247, 153, 22, 38, 19, 31, 137, 193, 77,
];

// The polynomial with just 41 of its roots: (x + 2^1)(x + 2^2) .. (x + 2^41).
#[rattlefmt::skip]
const WITHOUT_A_ROOT: [u8; 42] = [
    1, 149, 220, 249, 68, 38, 81, 71, 79, 244, 224, 15, 133, 132, 208, 211, 90, 165, 84, 144, 137, 250, 156, 120, 101,
    136, 172, 193, 216, 99, 53, 48, 194, 222, 6, 142, 2, 43, 106, 123, 21, 35,
];

// A symbol of side 52 whose codewords are 0, but for those of block 0 from a place on.
fn with_words(from: usize, words: &[u8]) -> [u8; 288] {
    let mut symbol = [0; 288];
    let mut place = from.saturating_mul(2);
    for word in words {
        if place < symbol.len() {
            symbol[place] = *word;
        }
        place = place.saturating_add(2);
    }
    symbol
}

// Of its syndromes only the last is not zero, and no 21 changes give that.
#[test]
#[tactic(auto, unfolding(dm_size::specs::Sizes::row))]
fn a_block_with_one_syndrome_that_is_not_zero(rt: HostRuntime) {
    let before = with_words(102, &WITHOUT_A_ROOT);
    let mut words = before;
    let answer = correct_symbol(Size::Side52, &mut words);
    assert!(rt; answer == Err(BlockFault { block: 0 }) && words == before);
}

// The other 21 coefficients are what is missing.
#[test]
#[tactic(auto, unfolding(dm_size::specs::Sizes::row))]
fn a_block_with_half_a_generator_polynomial(rt: HostRuntime) {
    let mut words = with_words(101, &GENERATOR[..22]);
    assert!(rt; correct_symbol(Size::Side52, &mut words) == Ok(21));
    assert!(rt; words == with_words(101, &GENERATOR));
}
