//! Laws of what stands here: the function's contract is the law.

ghost use Rattle.std.specs.Prelude.{◌≡◌, ℕ};
ghost use Rattle.dm_finder_frame.specs.Frame.{GridView};
ghost use Rattle.dm_symbol.specs.Correction.{IsNear};
ghost use Rattle.dm_assembly_desk.specs.Documents.{Documents};
ghost use Rattle.relay_desk_commands.specs.Desks.{Copies, OpensAsHeld, OpensAsNoOther};
ghost use Rattle.dm_size.specs.declared.size.Size.{Size};
ghost use Rattle.dm_encodation.specs.declared.scheme.Scheme.{Scheme};

use crate::import::IMPORT_BYTES;
use dm_append_label::{LabelFault, Opened, open_label};
use dm_finder_frame::Grid;
use dm_finder_frame::laws::unframe_undoes_frame;
use dm_symbol::laws::grid_carries_its_words;
use std::alloc::Allocator;

/// The limits by number: no definition moves with a constant.
pub fn limits_by_number()
    ensures { IMPORT_BYTES ≡ 41643 }
{}

/// A copy opens as the page that the desk holds, with nothing to correct, and a grid near a copy opens as that page or
/// not at all: a copy never brings another page.
pub fn copies_open_as_the_page_held<A: Allocator + Copy>(
    alloc: A,
    grid: &Grid<A>,
) -> Result<Opened<A>, LabelFault>
    ensures itself { (held : Documents) (id m : ℕ) (size : Size) (scheme : Scheme)
        → Copies held id m size scheme grid.now → OpensAsHeld held id m result }
    ensures near { (held : Documents) (id m : ℕ) (size : Size) (scheme : Scheme) (copy : GridView)
        → Copies held id m size scheme copy → IsNear grid.now copy → OpensAsNoOther held id m result }
{
    let size = grid.size();
    grid_carries_its_words(size);
    unframe_undoes_frame(size);
    open_label(alloc, grid)
}
