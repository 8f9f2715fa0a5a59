// The list that merging would leave, in a separate buffer.
ghost use Rattle.corner_list.specs.CornerList.{slices};
ghost use Rattle.capi_lists.specs.Apart.{CornersMergedApart};

use corner_list::{CornerBuffer, CornerView};

// Writes to a separate buffer, `mx` to `mn`, what merging the first `count` corners of a buffer in place would leave
// there. `kept` gets the number of those corners.
#[unsafe(no_mangle)]
pub extern "C" fn zakdomp_merge_apart(
    xs: &[f32],
    ys: &[f32],
    strengths: &[f32],
    neighbours: &[u32],
    count: usize,
    radius: f32,
    mx: &mut [f32],
    my: &mut [f32],
    ms: &mut [f32],
    mn: &mut [u32],
    kept: &mut usize,
) -> u8
    ensures { CornersMergedApart radius count
        (slices xs.now ys.now strengths.now neighbours.now)
        (slices mx.old my.old ms.old mn.old) kept.old
        result (slices mx.new my.new ms.new mn.new) kept.new }
{
    let list = CornerView {
        xs,
        ys,
        strengths,
        neighbours,
    };
    let mut b = CornerBuffer {
        xs: mx,
        ys: my,
        strengths: ms,
        neighbours: mn,
    };
    let a = merge::apart::merge_apart(list, count, radius, &mut b);
    *kept = a.unwrap_or(*kept);
    lists::number_of(a)
}
