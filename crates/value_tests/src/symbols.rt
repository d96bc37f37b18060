//! Whole symbols, drawn and read.
#![tactic(auto, unfolding(dm_size::specs::Sizes::row))]

use crate::worked::{WORDS, flip_all, is_worked_example};
use dm_finder_frame::Grid;
use dm_size::Size;
use dm_symbol::{SymbolFault, correct_grid, draw_symbol, draw_words, still_near};

// Two codewords of eight are wrong: modules (2, 2) and (6, 6) stand in two codewords, (0, 1) and (9, 3) on the frame.
#[test]
fn symbols_are_drawn_and_read(rt: HostRuntime) {
    let mut grid = draw_symbol(rt.alloc(), Size::Side10, &WORDS[..3]).expect(&rt, "it is done");
    assert!(rt; is_worked_example(&grid));
    flip_all(&mut grid, &[(2, 2), (6, 6), (0, 1), (9, 3)]);
    let symbol = correct_grid(&grid.lend()).expect(&rt, "it is done");
    assert!(rt; symbol.words() == WORDS.as_slice() && symbol.data() == &WORDS[..3]);
    assert!(rt; (symbol.corrected(), symbol.wrong()) == (2, 2));
}

// Flips in three codewords.
const THREE: [(u16, u16); 3] = [(2, 2), (4, 4), (6, 6)];

// Flips in two codewords and on the frame, and in three codewords.
#[test]
fn grids_are_near(rt: HostRuntime) {
    let drawn = draw_words(rt.alloc(), Size::Side10, &WORDS).expect(&rt, "it is done");
    assert!(rt; drawn.size() == Size::Side10);
    assert!(rt;
        still_near(rt.alloc(), &drawn, &[(2, 2), (6, 6), (0, 1), (9, 3)]).expect(&rt, "it is done")
    );
    assert!(rt; !still_near(rt.alloc(), &drawn, &THREE).expect(&rt, "it is done"));
}

// No symbol is within two codewords of the one with these flips. Where all modules are light, 27 of the 36 on the
// frame are wrong.
#[test]
fn grids_are_refused(rt: HostRuntime) {
    let drawn = draw_words(rt.alloc(), Size::Side10, &WORDS).expect(&rt, "it is done");
    assert!(rt; drawn.size() == Size::Side10);
    let spoiled = drawn.with_flips(rt.alloc(), &THREE);
    let spoiled = spoiled.expect(&rt, "it is done");
    assert!(rt; correct_grid(&spoiled.lend()).err() == Some(SymbolFault::Block { block: 0 }));
    let light = Grid::of_modules(rt.alloc(), 10, &[false; 100]).expect(&rt, "it is done");
    assert!(rt; correct_grid(&light.lend()).err() == Some(SymbolFault::Border { wrong: 27 }));
}
