// Corners merged in place by distance alone.
ghost use Rattle.corner_list.specs.CornerList.{slices};
ghost use Rattle.capi_lists.specs.Naive.{CornersMergedNaively};

use corner_list::CornerBuffer;

// Merges the first `count` corners of a buffer in place by distance alone. `kept` gets the number of corners left.
#[unsafe(no_mangle)]
pub extern "C" fn zakdomp_merge_naive(
    xs: &mut [f32],
    ys: &mut [f32],
    strengths: &mut [f32],
    neighbours: &mut [u32],
    count: usize,
    radius: f32,
    kept: &mut usize,
) -> u8
    ensures { CornersMergedNaively radius count (slices xs.old ys.old strengths.old neighbours.old) kept.old result
        (slices xs.new ys.new strengths.new neighbours.new) kept.new }
{
    let mut b = CornerBuffer {
        xs,
        ys,
        strengths,
        neighbours,
    };
    let a = merge_naive::merge_corners_naive(&mut b, count, radius);
    *kept = a.unwrap_or(*kept);
    lists::number_of(a)
}
