//! The generator polynomials for the numbers of error correction codewords that the sizes have, as the standard prints
//! them: the coefficients after that of the highest power, which is 1 (ISO/IEC 16022:2006, Annex E).

ghost use Rattle.std.specs.Prelude.{◌≡◌, length, IfSome};
ghost use Rattle.dm_check_blocks.specs.inner.Remainders.{IsGenerator};

#[rattlefmt::skip]
static GENERATOR_5: [u8; 5] = [
    62, 111, 15, 48, 228,
];

#[rattlefmt::skip]
static GENERATOR_7: [u8; 7] = [
    254, 92, 240, 134, 144, 68, 23,
];

#[rattlefmt::skip]
static GENERATOR_10: [u8; 10] = [
    61, 110, 255, 116, 248, 223, 166, 185, 24, 28,
];

#[rattlefmt::skip]
static GENERATOR_12: [u8; 12] = [
    242, 100, 178, 97, 213, 142, 42, 61, 91, 158, 153, 41,
];

#[rattlefmt::skip]
static GENERATOR_14: [u8; 14] = [
    185, 83, 186, 18, 45, 138, 119, 157, 9, 95, 252, 192, 97, 156,
];

#[rattlefmt::skip]
static GENERATOR_18: [u8; 18] = [
    188, 90, 48, 225, 254, 94, 129, 109, 213, 241, 61, 66, 75, 188, 39, 100, 195, 83,
];

#[rattlefmt::skip]
static GENERATOR_20: [u8; 20] = [
    172, 186, 174, 27, 82, 108, 79, 253, 145, 153, 160, 188, 2, 168, 71, 233, 9, 244, 195, 15,
];

#[rattlefmt::skip]
static GENERATOR_24: [u8; 24] = [
    193, 50, 96, 184, 181, 12, 124, 254, 172, 5, 21, 155, 223, 251, 197, 155, 21, 176, 39, 109, 205, 88, 190, 52,
];

#[rattlefmt::skip]
static GENERATOR_28: [u8; 28] = [
    255, 93, 168, 233, 151, 120, 136, 141, 213, 110, 138, 17, 121, 249, 34, 75, 53, 170, 151, 37, 174, 103, 96, 71,
    97, 43, 231, 211,
];

#[rattlefmt::skip]
static GENERATOR_36: [u8; 36] = [
    112, 81, 98, 225, 25, 59, 184, 175, 44, 115, 119, 95, 137, 101, 33, 68, 4, 2, 18, 229, 182, 80, 251, 220, 179,
    84, 120, 102, 181, 162, 250, 130, 218, 242, 127, 245,
];

#[rattlefmt::skip]
static GENERATOR_42: [u8; 42] = [
    5, 9, 5, 226, 177, 150, 50, 69, 202, 248, 101, 54, 57, 253, 1, 21, 121, 57, 111, 214, 105, 167, 9, 100, 95, 175,
    8, 242, 133, 245, 2, 122, 105, 247, 153, 22, 38, 19, 31, 137, 193, 77,
];

#[rattlefmt::skip]
static GENERATOR_48: [u8; 48] = [
    19, 225, 253, 92, 213, 69, 175, 160, 147, 187, 87, 176, 44, 82, 240, 186, 138, 66, 100, 120, 88, 131, 205, 170,
    90, 37, 23, 118, 147, 16, 106, 191, 87, 237, 188, 205, 231, 238, 133, 238, 22, 117, 32, 96, 223, 172, 132, 245,
];

#[rattlefmt::skip]
static GENERATOR_56: [u8; 56] = [
    46, 143, 53, 233, 107, 203, 43, 155, 28, 247, 67, 127, 245, 137, 13, 164, 207, 62, 117, 201, 150, 22, 238, 144,
    232, 29, 203, 117, 234, 218, 146, 228, 54, 132, 200, 38, 223, 36, 159, 150, 235, 215, 192, 230, 170, 175, 29,
    100, 208, 220, 17, 12, 238, 223, 9, 175,
];

#[rattlefmt::skip]
static GENERATOR_62: [u8; 62] = [
    204, 11, 47, 86, 124, 224, 166, 94, 7, 232, 107, 4, 170, 176, 31, 163, 17, 188, 130, 40, 10, 87, 63, 51, 218,
    27, 6, 147, 44, 161, 71, 114, 64, 175, 221, 185, 106, 250, 190, 197, 63, 245, 230, 134, 112, 185, 37, 196, 108,
    143, 189, 201, 188, 202, 118, 39, 210, 144, 50, 169, 93, 242,
];

#[rattlefmt::skip]
static GENERATOR_68: [u8; 68] = [
    186, 82, 103, 96, 63, 132, 153, 108, 54, 64, 189, 211, 232, 49, 25, 172, 52, 59, 241, 181, 239, 223, 136, 231,
    210, 96, 232, 220, 25, 179, 167, 202, 185, 153, 139, 66, 236, 227, 160, 15, 213, 93, 122, 68, 177, 158, 197,
    234, 180, 248, 136, 213, 127, 73, 36, 154, 244, 147, 33, 89, 56, 159, 149, 251, 89, 173, 228, 220,
];

/// The coefficients after the first of the generator polynomial for that many error correction codewords, if a size has
/// that many in a block.
#[tactic(auto, using(crate::proofs::ListedGenerators::listed_generators))]
pub(crate) fn listed(count: usize) -> Option<&'static [u8]>
    ensures { IfSome result (λ generator. (length generator.now ≡ count) × IsGenerator generator.now) }
{
    match count {
        5 => Some(&GENERATOR_5),
        7 => Some(&GENERATOR_7),
        10 => Some(&GENERATOR_10),
        12 => Some(&GENERATOR_12),
        14 => Some(&GENERATOR_14),
        18 => Some(&GENERATOR_18),
        20 => Some(&GENERATOR_20),
        24 => Some(&GENERATOR_24),
        28 => Some(&GENERATOR_28),
        36 => Some(&GENERATOR_36),
        42 => Some(&GENERATOR_42),
        48 => Some(&GENERATOR_48),
        56 => Some(&GENERATOR_56),
        62 => Some(&GENERATOR_62),
        68 => Some(&GENERATOR_68),
        _ => None,
    }
}
