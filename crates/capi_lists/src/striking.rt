// The corner at a place of a list removed.
ghost use Rattle.corner_list.specs.CornerList.{slices};
ghost use Rattle.corner_strike.specs.Editions.{edition};
ghost use Rattle.capi_lists.specs.Striking.{CornerStruck};

use corner_list::CornerBuffer;

// Removes the corner at a place of a list of `count` corners, if the list's change number `change` is the one that was
// shown. The count goes down by one, and the change number up by one.
#[unsafe(no_mangle)]
pub extern "C" fn zakdomp_strike_corner(
    xs: &mut [f32],
    ys: &mut [f32],
    strengths: &mut [f32],
    neighbours: &mut [u32],
    count: &mut usize,
    change: &mut u32,
    place: usize,
    shown: u32,
) -> u8
    ensures { CornerStruck (slices xs.old ys.old strengths.old neighbours.old) (edition count.old change.old)
        place shown result (slices xs.new ys.new strengths.new neighbours.new) (edition count.new change.new) }
{
    let mut b = CornerBuffer {
        xs,
        ys,
        strengths,
        neighbours,
    };
    let a = corner_strike::strike_corner(&mut b, count, change, place, shown);
    lists::number_of(a)
}
