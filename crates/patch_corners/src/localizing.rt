// Moves the corners of a buffer to their centres of mass.
ghost use Rattle.std.specs.Prelude.{◌≡◌, ◌+◌, ◌≤◌};
ghost use Rattle.lists.specs.Limits.{largest_side};
ghost use Rattle.corner_list.specs.CornerList.{places_of};
ghost use Rattle.corner_list.specs.Buffer.{contents, SameSlices};
ghost use Rattle.patch_corners.specs.MapCorners.{centred};
ghost use Rattle.patch_corners.specs.Internal.{Changed, lowered};

use center_of_mass::{CenterOfMassRefiner, Outcome};
use corner_list::{Corner, CornerBuffer};

// A corner at its centre of mass, or unchanged.
fn centre(c: Corner, radius: u32, map: &[f32], w: usize, h: usize) -> Corner
    ensures { result ≡ centred radius map.now w h c }
{
    let refiner = CenterOfMassRefiner { radius };
    let o = refiner.refine(c.x, c.y, Some(map), w, h);
    let Outcome::Accepted(x, y, _) = o else {
        return c;
    };
    Corner { x, y, ..c }
}

// A corner moved down by some rows.
fn lower(c: Corner, rows: usize) -> Corner
    requires { rows ≤ largest_side }
    ensures { result ≡ lowered rows c }
{
    Corner {
        y: c.y + rows as f32,
        ..c
    }
}

// Moves the n corners after the first `held` of a buffer, found in a part of the map from row `top` on, to their
// centres of mass in the map.
pub(crate) fn centre_all(
    map: &[f32],
    w: usize,
    h: usize,
    radius: u32,
    top: usize,
    list: &mut CornerBuffer<'_>,
    held: usize,
    n: usize,
)
    requires { (held + n ≤ places_of (contents list.old)) × (top ≤ largest_side) }
    ensures same_slices { SameSlices list.old list.new }
    ensures changed { Changed (λ c. centred radius map.now w h (lowered top c)) held n
        (contents list.old) (contents list.new) }
{
    for i in 0..n {
        let c = list.at(held + i);
        list.put(held + i, centre(lower(c, top), radius, map, w, h));
    }
}
