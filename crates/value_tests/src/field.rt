//! The field of 256 elements.

use dm_gf256::{Gf, add_multiple};

#[test]
fn worked_values(rt: HostRuntime) {
    assert!(rt; Gf(128).mul(Gf(2)) == Gf(45));
    assert!(rt; Gf(2).inv() == Gf(150));
    assert!(rt; Gf(5).add(Gf(6)) == Gf(3));
    assert!(rt; Gf::alpha(8) == Gf(45));
    assert!(rt; Gf::alpha(255) == Gf(1));
}

// The generator polynomial for five error correction codewords, which the standard prints, has 2^1 to 2^5 as roots.
#[test]
fn the_generator_of_five_error_correction_codewords(rt: HostRuntime) {
    let generator = [Gf(1), Gf(62), Gf(111), Gf(15), Gf(48), Gf(228)];
    for k in 1..6u8 {
        assert!(rt; Gf::eval(&generator, Gf::alpha(k)) == Gf(0), "at 2^{k}");
    }
    assert!(rt; Gf::eval(&generator, Gf(1)) == Gf(1 ^ 62 ^ 111 ^ 15 ^ 48 ^ 228));
}

#[test]
fn adds_a_multiple(rt: HostRuntime) {
    let mut target = [1, 128, 7];
    add_multiple(&mut target, &[0, 128, 1], 2);
    assert!(rt; target == [1, 128 ^ 45, 5]);
}
