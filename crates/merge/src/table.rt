// Merging in place with a borrowed table, the index of the kept corners. With more than two slots for each corner, the
// time does not grow faster than the list, whatever its order.
ghost use Rattle.corner_list.specs.Buffer.{contents, SameSlices};
ghost use Rattle.merge.specs.Table.{MergesByTable};

use corner_list::CornerBuffer;
use lists::Refusal;

// Merges the first `count` corners of a buffer in place, as `merge_corners_simple`, with a table of any length, and
// clears the table.
pub fn merge_by_table(
    b: &mut CornerBuffer<'_>,
    table: &mut [f32],
    count: usize,
    radius: f32,
) -> Result<usize, Refusal>
    ensures same_slices { SameSlices b.old b.new }
    ensures merged { MergesByTable radius count (contents b.old) table.old result (contents b.new) table.new }
{
    merge_refusal::refusal(b.view(), b.xs.len(), count, radius)?;
    Ok(crate::merge_list(b, table, count, radius))
}
