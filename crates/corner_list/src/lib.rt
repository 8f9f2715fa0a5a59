// Corners, and lists of them in a buffer of four slices.
#![tactic(auto)]

mod buffer; // CornerBuffer, CornerView: four borrowed slices

ghost use Rattle.std.specs.Prelude.{◌≡◌};
ghost use Rattle.corner_list.specs.CornerList.{is_inside};

pub use buffer::{CornerBuffer, CornerView};

// Where a corner is, in pixels, the response at its peak, and how many neighbours of that peak are above 0.
#[derive(Clone, Copy)]
pub struct Corner {
    pub x: f32,
    pub y: f32,
    pub strength: f32,
    pub neighbours: u32,
}

// The largest side as a float.
const LARGEST_COORDINATE: f32 = 4096.0;

// Whether both coordinates are from 0 to the largest.
pub fn is_inside(c: Corner) -> bool
    ensures { result ≡ is_inside c }
{
    float32::is_between(0.0, LARGEST_COORDINATE, c.x)
        && float32::is_between(0.0, LARGEST_COORDINATE, c.y)
}
