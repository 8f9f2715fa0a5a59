// The place that a corner takes among the kept ones: all that settling does, whichever corners join.
ghost use Rattle.std.specs.Prelude.{◌≡◌, ◌-◌, ◌^◌, min};
ghost use Rattle.corner_list.specs.Buffer.{contents, seen, SameSlices};
ghost use Rattle.merge_settle.specs.Settle.{place_of, count_with, put_at};

use corner_list::{Corner, CornerBuffer, CornerView};

// The place that c takes among the first k corners of a buffer, of which `joined` is the first that it joins: that
// one's if c is stronger, and none if not; the place after them all if it joins none.
fn place_for(v: CornerView<'_>, k: usize, c: Corner, joined: Option<usize>) -> Option<usize>
    ensures { result ≡ place_of (seen v.entry) k c joined }
{
    let i = match joined {
        Some(i) => i,
        None => return Some(k),
    };
    if v.at(i).strength < c.strength {
        Some(i)
    } else {
        None
    }
}

// Puts c in that place, and returns the place.
pub fn settle_corner(
    b: &mut CornerBuffer<'_>,
    k: usize,
    c: Corner,
    joined: Option<usize>,
) -> Option<usize>
    ensures same_slices { SameSlices b.old b.new }
    ensures place { result ≡ place_of (contents b.old) k c joined }
    ensures put { contents b.new ≡ put_at result c (contents b.old) }
{
    let place = place_for(b.view(), k, c, joined);
    if let Some(at) = place {
        b.put(at, c);
    }
    place
}

// How many corners are kept after one takes a place among the first k, or the place right after them, or none: no more
// than a `usize` holds.
pub fn count_with(k: usize, at: Option<usize>) -> usize
    ensures { result ≡ min (count_with k at) (2 ^ 64 - 1) }
{
    if at == Some(k) {
        k.saturating_add(1)
    } else {
        k
    }
}
