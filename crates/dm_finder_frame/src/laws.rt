//! Laws of the finder patterns and of flipped modules: each function's contract is the law, and its body does nothing.

ghost use Rattle.std.specs.Prelude.{◌≡◌, ℕ, List, [], ◌∷◌, ◌++◌};
ghost use Rattle.dm_finder_frame.specs.Frame.{FlipsOneModule, FrameHasNoWrongModule, UnframeUndoesFrame, grid_of_matrix, matrix_of_grid, GridView, IsWholeGrid, flipped, grid_with_flipped};
ghost use Rattle.dm_size.specs.Squares.{IsWhole, Square};

use dm_size::Size;

/// `unframe` undoes `frame`, and finds no wrong module.
#[tactic(auto, using(crate::proofs::FramedGrids::unframe_undoes_frame, crate::proofs::FramedGrids::frame_has_no_wrong_module))]
pub fn unframe_undoes_frame(size: Size)
    ensures matrix { UnframeUndoesFrame size }
    ensures wrong { FrameHasNoWrongModule size }
{}

/// To flip one module of a grid is to flip the module of the mapping matrix at its cell, or, on a finder pattern, none.
#[tactic(auto, using(crate::proofs::FlippedModules::flips_one_module))]
pub fn one_module_of_the_grid()
    ensures { FlipsOneModule }
{}

/// The grid of any mapping matrix, and the mapping matrix of any grid, has all its modules.
#[tactic(auto, using(crate::proofs::FramedGrids::grid_is_whole, crate::proofs::FramedGrids::matrix_is_whole))]
pub fn squares_are_whole()
    ensures grid { (size : Size) → (m : Square) → IsWholeGrid (grid_of_matrix size m) }
    ensures matrix { (g : GridView) → IsWhole (matrix_of_grid g) }
{}

/// Flipped modules leave a grid's size as it is, and its number of modules; one flip more is one more at the list's
/// end.
#[tactic(auto, using(crate::proofs::Flips::flips_keep_the_size, crate::proofs::Flips::flips_keep_it_whole, crate::proofs::Flips::one_flip_more))]
pub fn flips_are_made_in_order()
    ensures size { (g : GridView) (flips : List (ℕ × ℕ)) → (flipped g flips).size ≡ g.size }
    ensures whole { (g : GridView) (flips : List (ℕ × ℕ)) → IsWholeGrid g → IsWholeGrid (flipped g flips) }
    ensures more { (g : GridView) (flips : List (ℕ × ℕ)) (flip : ℕ × ℕ)
        → flipped g (flips ++ flip ∷ []) ≡ grid_with_flipped (flipped g flips) flip.0 flip.1 }
{}
