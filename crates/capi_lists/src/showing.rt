// The corner at a place of a list, with the list's change number.
ghost use Rattle.corner_list.specs.CornerList.{slices};
ghost use Rattle.corner_strike.specs.Editions.{edition};
ghost use Rattle.capi_lists.specs.Showing.{corner, CornerShown};

use corner_list::CornerView;

// Copies the corner at a place of a list of `count` corners, whose change number is `change`, to `x` to
// `neighbour_count`, and the change number to `shown`.
#[unsafe(no_mangle)]
pub extern "C" fn zakdomp_show_corner(
    xs: &[f32],
    ys: &[f32],
    strengths: &[f32],
    neighbours: &[u32],
    count: usize,
    change: u32,
    place: usize,
    x: &mut f32,
    y: &mut f32,
    strength: &mut f32,
    neighbour_count: &mut u32,
    shown: &mut u32,
) -> u8
    ensures { CornerShown (slices xs.now ys.now strengths.now neighbours.now) (edition count change) place
        (corner x.old y.old strength.old neighbour_count.old) shown.old result
        (corner x.new y.new strength.new neighbour_count.new) shown.new }
{
    let v = CornerView {
        xs,
        ys,
        strengths,
        neighbours,
    };
    match corner_strike::show_corner(v, count, change, place) {
        Ok(found) => {
            let c = found.corner;
            *x = c.x;
            *y = c.y;
            *strength = c.strength;
            *neighbour_count = c.neighbours;
            *shown = found.change;
            0
        }
        Err(refusal) => u8::from(refusal),
    }
}
