// The corner at a place of a list, and the list's change number.
ghost use Rattle.std.specs.Prelude.{◌≡◌};
ghost use Rattle.lists.specs.Refusals.{verdict};
ghost use Rattle.corner_list.specs.Buffer.{seen};
ghost use Rattle.corner_strike.specs.Editions.{edition};
ghost use Rattle.corner_strike.specs.Showing.{refusal_of, Shows};

use corner_list::{Corner, CornerView};
use lists::Refusal;

// The corner with the list's change number.
#[derive(Clone, Copy)]
pub struct Shown {
    pub corner: Corner,
    pub change: u32,
}

// Why a corner is not shown.
fn refusal(places: usize, count: usize, place: usize) -> Result<(), Refusal>
    ensures { result ≡ verdict (refusal_of places count place) }
{
    if places < count {
        return Err(Refusal::ListTooLong);
    }
    if count <= place {
        return Err(Refusal::BeyondList);
    }
    Ok(())
}

// Shows the corner at a place of a list of `count` corners, and the list's change number `change`. With that number the
// corner can be struck.
pub fn show_corner(
    v: CornerView<'_>,
    count: usize,
    change: u32,
    place: usize,
) -> Result<Shown, Refusal>
    ensures { Shows (seen v.entry) (edition count change) place result }
{
    refusal(v.places(), count, place)?;
    let corner = v.at(place);
    Ok(Shown { corner, change })
}
