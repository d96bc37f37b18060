//! Where each bit of a codeword stands, and the finder patterns around and between the regions.
#![tactic(auto, unfolding(dm_size::specs::Sizes::row))]

use crate::worked::{WORDS, is_worked_example, worked_modules};
use dm_finder_frame::{FrameFault, Grid, GridFault, cell_of, frame, unframe};
use dm_placement::{Layout, lift, lift_with, place, place_with, words_of};
use dm_size::{Matrix, Size};
use std::alloc::{AllocError, Global};

// A codeword in a corner's shape, and the cells of its bits.
#[rattlefmt::skip]
const SHAPES: [(Size, usize, [(u16, u16); 8]); 3] = [
    (Size::Side14, 7, [(11, 0), (11, 1), (11, 2), (0, 10), (0, 11), (1, 11), (2, 11), (3, 11)]),
    (Size::Side16, 7, [(11, 0), (12, 0), (13, 0), (0, 10), (0, 11), (0, 12), (0, 13), (1, 13)]),
    (Size::Side24, 22, [(19, 0), (20, 0), (21, 0), (0, 18), (0, 19), (0, 20), (0, 21), (1, 21)]),
];

#[test]
fn words_stand_in_corners(rt: HostRuntime) {
    for (size, word, cells) in SHAPES {
        let layout = Layout::of_size(rt.alloc(), size).expect(&rt, "it is done");
        assert!(rt; word < size.all_words());
        for bit in 1..9u8 {
            let cell = layout.cell(word, bit);
            assert!(rt; cell == cells[bit as usize - 1], "bit {bit}");
        }
    }
}

// In side 12 four cells are free, two of them dark. A module of a finder pattern has no cell.
#[test]
fn cells_are_free_or_on_no_finder_pattern(rt: HostRuntime) {
    let matrix = place(rt.alloc(), Size::Side12, &[0; 12]).expect(&rt, "it is done");
    assert!(rt; matrix.side() == 10);
    assert!(rt; matrix.module(9, 9) && matrix.module(8, 8));
    assert!(rt; !matrix.module(8, 9) && !matrix.module(9, 8));
    assert!(rt; are_on_no_finder_pattern());
}

// Whether two modules have these cells, and two others none.
fn are_on_no_finder_pattern() -> bool {
    cell_of(Size::Side10, 0, 0) == None
        && cell_of(Size::Side10, 1, 1) == Some((0, 0))
        && cell_of(Size::Side132, 131, 0) == None
        && cell_of(Size::Side132, 130, 23) == Some((119, 20))
}

#[test]
fn light_modules_are_words_of_0(rt: HostRuntime) {
    let light = Matrix::light(rt.alloc(), 10).expect(&rt, "it is done");
    let words = lift(rt.alloc(), Size::Side12, &light).expect(&rt, "it is done");
    assert!(rt; words.as_slice() == [0; 12].as_slice());
    assert!(rt; words_of(Size::Side12, &[false; 100]).as_slice() == [0; 12].as_slice());
}

// Whether the codewords of the standard's example are placed as it draws them, without a layout made before and with
// one.
fn is_placed(alloc: Global) -> Result<bool, AllocError> {
    let placed = place(alloc, Size::Side10, &WORDS)?;
    let layout = Layout::of_size(alloc, Size::Side10)?;
    let placed_with = place_with(alloc, &layout, &WORDS)?;
    Ok(
        is_worked_example(&frame(alloc, Size::Side10, &placed)?)
            && is_worked_example(&frame(alloc, Size::Side10, &placed_with)?),
    )
}

// Whether the modules that it draws give them back, without a layout and with one.
fn is_lifted(alloc: Global, drawn: &Grid) -> Result<bool, FrameFault> {
    let framed = unframe(alloc, drawn)?;
    let words = lift(alloc, framed.size, &framed.matrix)?;
    let layout = Layout::of_size(alloc, framed.size)?;
    let words_with = lift_with(alloc, &layout, &framed.matrix)?;
    Ok(framed.wrong == 0 && words.as_slice() == WORDS.as_slice() && words_with == words)
}

#[test]
fn words_are_placed_and_lifted(rt: HostRuntime) {
    assert!(rt; is_placed(rt.alloc()).expect(&rt, "it is done"));
    let drawn = Grid::of_modules(rt.alloc(), 10, &worked_modules()).expect(&rt, "it is done");
    assert!(rt; is_lifted(rt.alloc(), &drawn).expect(&rt, "it is done"));
}

// Of the 36 modules on the frame of side 10 nine are light, and 27 dark. No size has 11 modules along a side.
#[test]
fn grids_without_a_frame_are_refused(rt: HostRuntime) {
    let dark = Grid::of_modules(rt.alloc(), 10, &[true; 100]).expect(&rt, "it is done");
    assert!(rt; unframe(rt.alloc(), &dark).err() == Some(FrameFault::Border { wrong: 9 }));
    let light = Grid::of_modules(rt.alloc(), 10, &[false; 100]).expect(&rt, "it is done");
    assert!(rt; unframe(rt.alloc(), &light).err() == Some(FrameFault::Border { wrong: 27 }));
    assert!(rt; Grid::of_modules(rt.alloc(), 11, &[true; 121]).err() == Some(GridFault::Side));
    assert!(rt; Grid::of_modules(rt.alloc(), 10, &[true; 99]).err() == Some(GridFault::Side));
}
