// Merging corners that lie in one slice. The core works on four slices, one for each field. So the corners are swapped
// with the elements of four borrowed slices, merged there, and swapped back.
#![tactic(auto)]

ghost use Rattle.std.specs.Prelude.{◌≡◌, not, ◌&&◌, ◌≤◌, length, take};
ghost use Rattle.lists.specs.Buffer.{front};
ghost use Rattle.lists.specs.Places.{any};
ghost use Rattle.corner_list.specs.CornerList.{places_of, corners_of, front_corners};
ghost use Rattle.corner_list.specs.Buffer.{contents, SameSlices};
ghost use Rattle.merge_radius.specs.MergeRadius.{is_off};
ghost use Rattle.merge_refusal.specs.Refusals.{corner_outside};
ghost use Rattle.merge_slice.specs.MergeSlice.{MergesSlice};

use corner_list::{Corner, CornerBuffer};
use lists::Refusal;

// Whether one of the first `count` corners of a slice is outside; those past its end do not count.
fn has_outside(corners: &[Corner], count: usize) -> bool
    ensures { result ≡ any corner_outside (take count corners.now) }
{
    corners
        .iter()
        .take(count)
        .any(|c| !corner_list::is_inside(*c))
}

// Whether a corner that is outside refuses the call: one of the first `count` is, and the radius is on.
fn is_refused(corners: &[Corner], count: usize, radius: f32) -> bool
    ensures { result ≡ (not (is_off radius) && any corner_outside (take count corners.now)) }
{
    !merge_radius::is_off(radius) && has_outside(corners, count)
}

// Swaps the first n corners with the first n places of a buffer.
fn exchange(corners: &mut [Corner], b: &mut CornerBuffer<'_>, n: usize)
    requires { (n ≤ length corners.old) × (n ≤ places_of (contents b.old)) }
    ensures same_slices { SameSlices b.old b.new }
    ensures exchanged { (corners.new ≡ front (corners_of (contents b.old) n) corners.old)
        × (contents b.new ≡ front_corners (take n corners.old) (contents b.old)) }
{
    // By the place, by which the buffer is asked too.
    for i in 0..n {
        let c = corners[i];
        corners[i] = b.at(i);
        b.put(i, c);
    }
}

// Merges the first `count` corners of a slice in place, as `merge_corners_simple` does for four slices. Those are
// scratch space: at the end they hold what they held before. Whether a counted corner is outside is judged first: the
// core gets only the corners for which the scratch has a place.
pub fn merge_corner_slice(
    corners: &mut [Corner],
    b: &mut CornerBuffer<'_>,
    count: usize,
    radius: f32,
) -> Result<usize, Refusal>
    ensures same_slices { SameSlices b.old b.new }
    ensures merged { MergesSlice radius count corners.old (contents b.old) result corners.new (contents b.new) }
{
    if is_refused(corners, count, radius) {
        return Err(Refusal::PositionOutside);
    }
    let n = count.min(corners.len().min(b.places()));
    exchange(corners, b, n);
    let answer = merge::merge_within(b, n, count, radius);
    exchange(corners, b, n);
    answer
}
