// Merging corners. The corners of a list are taken in order. Each is compared with the corners kept so far whose cells,
// in a grid of cells as wide as the radius, differ from its own by at most one each way. It joins the one at the lowest
// place that is at most the radius away. It replaces that corner, in its place and with its own neighbours, if it is
// strictly stronger, and is dropped if not. If it joins none, it is kept after the others. So two corners nearer than
// the radius may both stay, and the strongest of several need not: the grid decides which corners are compared, and the
// list's order which one is joined.
#![tactic(auto)]

pub mod apart; // merge_apart: the list that merging would leave, in a separate buffer
pub mod table; // merge_by_table: merging in place with a borrowed table

ghost use Rattle.std.specs.Prelude.{◌≡◌, ◌≤◌, min};
ghost use Rattle.lists.specs.Buffer.{wiped_from};
ghost use Rattle.float32.specs.Float32.{zero};
ghost use Rattle.corner_list.specs.CornerList.{corners_of, places_of};
ghost use Rattle.corner_list.specs.Buffer.{contents, SameSlices};
ghost use Rattle.merge_settle.specs.Settle.{Left};
ghost use Rattle.merge.specs.Merge.{result_of, Merges};

use corner_list::CornerBuffer;
use lists::Refusal;

// Merges the first n corners of a buffer in place, with a borrowed table, and returns how many are left. It refuses
// nothing.
pub(crate) fn merge_list(
    b: &mut CornerBuffer<'_>,
    table: &mut [f32],
    n: usize,
    radius: f32,
) -> usize
    requires { n ≤ places_of (contents b.old) }
    ensures same_slices { SameSlices b.old b.new }
    ensures left { Left (result_of radius (corners_of (contents b.old) n)) (contents b.old) result (contents b.new) }
    ensures table_after { table.new ≡ wiped_from 0 zero table.old }
{
    if merge_radius::is_off(radius) {
        clearing::clear(table, 0);
        return n;
    }
    let v = b.view();
    let g = merge_grid::grid_of(v.xs, v.ys, n, radius);
    merge_settle::settle_list(None, b, table, g, n)
}

// Merges the first `count` corners of a buffer of at most `places` places.
pub fn merge_within(
    b: &mut CornerBuffer<'_>,
    places: usize,
    count: usize,
    radius: f32,
) -> Result<usize, Refusal>
    ensures same_slices { SameSlices b.old b.new }
    ensures merged { Merges radius (min places (places_of (contents b.old))) count (contents b.old) result
        (contents b.new) }
{
    merge_refusal::refusal(b.view(), places, count, radius)?;
    Ok(merge_list(b, &mut [], count, radius))
}

// Merges the first `count` corners of a buffer in place, as the Rust's `merge_corners_simple`.
pub fn merge_corners_simple(
    b: &mut CornerBuffer<'_>,
    count: usize,
    radius: f32,
) -> Result<usize, Refusal>
    ensures same_slices { SameSlices b.old b.new }
    ensures merged { Merges radius (places_of (contents b.old)) count (contents b.old) result (contents b.new) }
{
    merge_within(b, b.xs.len(), count, radius)
}
