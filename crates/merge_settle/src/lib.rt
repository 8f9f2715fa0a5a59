// Settling a list of corners, one after the other, among those kept so far: the code of merging, which does not know
// the radius and refuses nothing.
#![tactic(auto)]

mod index;
mod placing;
mod search;
mod settling;

ghost use Rattle.std.specs.Prelude.{◌≡◌};
ghost use Rattle.lists.specs.Buffer.{wiped_from};
ghost use Rattle.float32.specs.Float32.{zero};
ghost use Rattle.corner_list.specs.Buffer.{contents, SameSlices};
ghost use Rattle.merge_settle.specs.Settle.{Settles};

use corner_list::{CornerBuffer, CornerView};
use merge_grid::Grid;
pub use placing::{count_with, settle_corner};
use settling::{Step, merge_up_to, merge_with, slots_for};

// Settles the first n corners of a list, or as many as a buffer has places for, by a grid, and returns how many are
// kept: they are then at the start of that buffer. The list is in that buffer too or, if there is a `list`, in a buffer
// of its own. The table is borrowed for the index of the kept corners, and zero afterwards. If it is too short, a table
// on the stack is used instead, which has at most 131,072 slots. If more corners are kept than that, from a list that
// does not come row by row, the time grows with the square of their number.
pub fn settle_list(
    list: Option<CornerView<'_>>,
    b: &mut CornerBuffer<'_>,
    table: &mut [f32],
    g: Grid,
    n: usize,
) -> usize
    ensures same_slices { SameSlices b.old b.new }
    ensures settles { Settles g list.entry n (contents b.old) result (contents b.new) }
    ensures table_after { table.new ≡ wiped_from 0 zero table.old }
{
    let held = n.min(b.places());
    let slots = slots_for(table.len(), held);
    if 0 < slots {
        table[..slots].fill(index::EMPTY_SLOT);
        let s = Step { done: 0, kept: 0 };
        let t = merge_with(list, b, &mut table[..slots], g, held, s, held);
        clearing::clear(table, 0);
        return t.kept;
    }
    let s = merge_up_to(list, b, g, held, held);
    clearing::clear(table, 0);
    s.kept
}
