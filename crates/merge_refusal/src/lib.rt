// The refusals of merging corners.
#![tactic(auto)]

ghost use Rattle.std.specs.Prelude.{◌≡◌, cond, min, ltb};
ghost use Rattle.lists.specs.Places.{any};
ghost use Rattle.lists.specs.Refusals.{verdict};
ghost use Rattle.corner_list.specs.CornerList.{corners_of, places_of};
ghost use Rattle.corner_list.specs.Buffer.{seen};
ghost use Rattle.merge_refusal.specs.Refusals.{corner_outside, refusal_of};

use corner_list::CornerView;
use lists::Refusal;

// Whether one of the first n corners of a buffer is not inside.
fn has_outside(list: CornerView<'_>, n: usize) -> bool
    ensures { result ≡ any corner_outside (corners_of (seen list.entry) n) }
{
    (0..n).any(|i| !corner_list::is_inside(list.at(i)))
}

// Refuses more corners than there are places.
fn crowding(places: usize, count: usize) -> Result<(), Refusal>
    ensures { result ≡ verdict (cond (ltb places count) 10 0) }
{
    if places < count {
        return Err(Refusal::ListTooLong);
    }
    Ok(())
}

// Why merging the first `count` corners of a buffer of at most `places` places is refused.
pub fn refusal(
    list: CornerView<'_>,
    places: usize,
    count: usize,
    radius: f32,
) -> Result<(), Refusal>
    ensures { result ≡ verdict (refusal_of radius (min places (places_of (seen list.entry))) count
        (seen list.entry)) }
{
    let held = places.min(list.places());
    if merge_radius::is_off(radius) {
        return crowding(held, count);
    }
    if has_outside(list, count.min(held)) {
        return Err(Refusal::PositionOutside);
    }
    if merge_radius::is_sized(radius) {
        return crowding(held, count);
    }
    Err(Refusal::RadiusOutside)
}
