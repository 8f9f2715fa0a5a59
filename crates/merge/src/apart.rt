// The list that merging a buffer would leave, written to a separate buffer. The merged buffer is only read. After the
// list, the separate buffer stays as it was, so a corner is written only when it is kept.
ghost use Rattle.std.specs.Prelude.{◌≡◌, ◌≤◌};
ghost use Rattle.lists.specs.Refusals.{verdict};
ghost use Rattle.corner_list.specs.CornerList.{corners_of, places_of, front_corners};
ghost use Rattle.corner_list.specs.Buffer.{contents, seen, SameSlices};
ghost use Rattle.merge_settle.specs.Settle.{Left};
ghost use Rattle.merge.specs.Merge.{result_of};
ghost use Rattle.merge.specs.Apart.{refusal_apart, MergedApart};

use corner_list::{CornerBuffer, CornerView};
use lists::Refusal;

// Copies the first n corners of a buffer into another. Corner by corner: `copy_from_slice` of its slices would have the
// library need `memmove` from outside, which nothing else in it needs.
fn copy_list(list: CornerView<'_>, n: usize, b: &mut CornerBuffer<'_>)
    requires { n ≤ places_of (contents b.old) }
    ensures same_slices { SameSlices b.old b.new }
    ensures copied { contents b.new
        ≡ front_corners (corners_of (seen list.entry) n) (contents b.old) }
{
    for i in 0..n {
        b.put(i, list.at(i));
    }
}

// Merges the first n corners of a buffer into another, and returns how many are left. It checks nothing.
fn merge_into(list: CornerView<'_>, n: usize, radius: f32, b: &mut CornerBuffer<'_>) -> usize
    requires { n ≤ places_of (contents b.old) }
    ensures same_slices { SameSlices b.old b.new }
    ensures left { Left (result_of radius (corners_of (seen list.entry) n)) (contents b.old) result (contents b.new) }
{
    if merge_radius::is_off(radius) {
        copy_list(list, n, b);
        return n;
    }
    let g = merge_grid::grid_of(list.xs, list.ys, n, radius);
    merge_settle::settle_list(Some(list), b, &mut [], g, n)
}

// Why merging `count` corners into a separate buffer with a given number of places is refused: as merging them in place
// is, or else because they do not fit.
fn refusal_apart(
    list: CornerView<'_>,
    places: usize,
    count: usize,
    radius: f32,
) -> Result<(), Refusal>
    ensures { result ≡ verdict (refusal_apart radius places count (seen list.entry)) }
{
    merge_refusal::refusal(list, list.xs.len(), count, radius)?;
    if places < count {
        return Err(Refusal::ListTooLong);
    }
    Ok(())
}

// Writes to a separate buffer what merging the first `count` corners of a buffer in place would leave there.
pub fn merge_apart(
    list: CornerView<'_>,
    count: usize,
    radius: f32,
    b: &mut CornerBuffer<'_>,
) -> Result<usize, Refusal>
    ensures same_slices { SameSlices b.old b.new }
    ensures merged { MergedApart radius count (seen list.entry) (contents b.old) result (contents b.new) }
{
    refusal_apart(list, b.places(), count, radius)?;
    Ok(merge_into(list, count, radius, b))
}
