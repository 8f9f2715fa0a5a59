// Corners merged in place with a borrowed table.
ghost use Rattle.corner_list.specs.CornerList.{slices};
ghost use Rattle.capi_lists.specs.Table.{CornersMergedByTable};

use corner_list::CornerBuffer;

// Merges the first `count` corners of a buffer in place with a table, which is cleared, and puts the number of those
// that are left into `kept`.
#[unsafe(no_mangle)]
pub extern "C" fn zakdomp_merge_by_table(
    xs: &mut [f32],
    ys: &mut [f32],
    strengths: &mut [f32],
    neighbours: &mut [u32],
    count: usize,
    radius: f32,
    table: &mut [f32],
    kept: &mut usize,
) -> u8
    ensures { CornersMergedByTable radius count
        (slices xs.old ys.old strengths.old neighbours.old)
        table.old kept.old result
        (slices xs.new ys.new strengths.new neighbours.new)
        table.new kept.new }
{
    let mut b = CornerBuffer {
        xs,
        ys,
        strengths,
        neighbours,
    };
    let a = merge::table::merge_by_table(&mut b, table, count, radius);
    *kept = a.unwrap_or(*kept);
    lists::number_of(a)
}
