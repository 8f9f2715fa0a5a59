// Merging corners by distance alone, without cells. Each corner of a list, in its order, looks among those kept so far
// for the lowest place with a corner at most the radius away. If it is strictly stronger, it replaces that corner, in
// its place and with its own neighbours; otherwise it is dropped. If there is no such place, it is kept after the
// others. The time of a call grows with the length of the list times that of the kept list; the frame merges by cells
// (`merge`).
#![tactic(auto)]

ghost use Rattle.std.specs.Prelude.{◌≡◌, ◌<◌, ◌≤◌};
ghost use Rattle.corner_list.specs.CornerList.{places_of, corners_of};
ghost use Rattle.corner_list.specs.Buffer.{contents, SameSlices};
ghost use Rattle.merge_grid.specs.Grid.{position_at, near};
ghost use Rattle.merge_settle.specs.Settle.{Left};
ghost use Rattle.merge_settle.specs.Internal.{FirstPasses, Settled};
ghost use Rattle.merge_naive.specs.MergeNaive.{near_by, naive_of, MergesNaive};

use corner_list::{Corner, CornerBuffer};
use lists::Refusal;
use merge_grid::Position;

// The lowest of the first k places of a buffer whose corner is near a position.
fn first_near(xs: &[f32], ys: &[f32], square: f32, k: usize, p: Position) -> Option<usize>
    ensures { FirstPasses (λ i. near square p (position_at xs.now ys.now i)) k result }
{
    (0..k).find(|i| merge_grid::is_near(square, p, merge_grid::position_at(xs, ys, *i)))
}

// Settles c among the first k corners of a buffer, and returns how many are kept then.
fn settle_near(b: &mut CornerBuffer<'_>, square: f32, k: usize, c: Corner) -> usize
    requires { k < places_of (contents b.old) }
    ensures same_slices { SameSlices b.old b.new }
    ensures settled { Settled (near_by square) k c (contents b.old) result (contents b.new) }
{
    let v = b.view();
    let joined = first_near(v.xs, v.ys, square, k, Position::from(c));
    let at = merge_settle::settle_corner(b, k, c, joined);
    merge_settle::count_with(k, at)
}

// Merges the first n corners of a buffer in place, and returns how many are left. It checks nothing.
fn merge_list(b: &mut CornerBuffer<'_>, n: usize, radius: f32) -> usize
    requires { n ≤ places_of (contents b.old) }
    ensures same_slices { SameSlices b.old b.new }
    ensures left { Left (naive_of radius (corners_of (contents b.old) n)) (contents b.old) result (contents b.new) }
{
    if merge_radius::is_off(radius) {
        return n;
    }
    let square = radius * radius;
    let mut k = 0;
    // By the place: the list lies in the buffer that changes.
    for i in 0..n {
        let c = b.at(i);
        k = settle_near(b, square, k, c);
    }
    k
}

// Merges the first `count` corners of a buffer in place, like the Rust's `merge_corners_naive`. It refuses what
// `merge_corners_simple` refuses.
pub fn merge_corners_naive(
    b: &mut CornerBuffer<'_>,
    count: usize,
    radius: f32,
) -> Result<usize, Refusal>
    ensures same_slices { SameSlices b.old b.new }
    ensures merged { MergesNaive radius count (contents b.old) result (contents b.new) }
{
    merge_refusal::refusal(b.view(), b.xs.len(), count, radius)?;
    Ok(merge_list(b, count, radius))
}
