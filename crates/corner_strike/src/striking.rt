// The corner at a place of a list removed.
ghost use Rattle.std.specs.Prelude.{◌≡◌, ◌<◌, ◌≤◌};
ghost use Rattle.lists.specs.Refusals.{verdict};
ghost use Rattle.corner_list.specs.CornerList.{places_of, without_corner};
ghost use Rattle.corner_list.specs.Buffer.{contents, SameSlices};
ghost use Rattle.corner_strike.specs.Editions.{edition};
ghost use Rattle.corner_strike.specs.Striking.{refusal_of, Strikes};

use corner_list::{Corner, CornerBuffer};
use lists::Refusal;

// The list's count and change number after the strike.
#[derive(Clone, Copy)]
pub struct Strike {
    pub count: usize,
    pub change: u32,
}

// The largest change number.
const LARGEST_CHANGE: u32 = u32::MAX;

// Why a strike is refused.
fn refusal(
    places: usize,
    count: usize,
    change: u32,
    place: usize,
    shown: u32,
) -> Result<(), Refusal>
    ensures { result ≡ verdict (refusal_of places (edition count change) place shown) }
{
    if places < count {
        return Err(Refusal::ListTooLong);
    }
    if shown != change {
        return Err(Refusal::ListChanged);
    }
    if count <= place {
        return Err(Refusal::BeyondList);
    }
    if change == LARGEST_CHANGE {
        return Err(Refusal::LastChange);
    }
    Ok(())
}

// Removes one of the first `count` corners: later ones move up, and the last place becomes zero in every slice.
fn remove_corner(b: &mut CornerBuffer<'_>, count: usize, place: usize)
    requires { (place < count) × (count ≤ places_of (contents b.old)) }
    ensures same_slices { SameSlices b.old b.new }
    ensures removed { contents b.new ≡ without_corner place count (contents b.old) }
{
    let last = count - 1;
    // By the place: each corner goes one place ahead of its own.
    for at in place..last {
        let next = b.at(at + 1);
        b.put(at, next);
    }
    let none = Corner {
        x: 0.0,
        y: 0.0,
        strength: 0.0,
        neighbours: 0,
    };
    b.put(last, none);
}

// Strikes the corner at a place of a list of `count` corners, if the list's change number `change` is the one that was
// shown. Both are borrowed: the count goes down by one and the change number up by one in place. So the owner of the
// list can tell that it changed, and a second call with the shown number is refused.
pub fn strike_corner(
    b: &mut CornerBuffer<'_>,
    count: &mut usize,
    change: &mut u32,
    place: usize,
    shown: u32,
) -> Result<Strike, Refusal>
    ensures same_slices { SameSlices b.old b.new }
    ensures struck { Strikes (contents b.old) (edition count.old change.old) place shown
        result (contents b.new) (edition count.new change.new) }
{
    refusal(b.places(), *count, *change, place, shown)?;
    remove_corner(b, *count, place);
    let left = *count - 1;
    let raised = *change + 1;
    *count = left;
    *change = raised;
    Ok(Strike {
        count: left,
        change: raised,
    })
}
