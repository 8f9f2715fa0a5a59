// Lists made by counting, scans of places, buffers and numbered conditions: see specs/ and proofs/. The code is the
// limits of the rules, as specs/Limits.antt has them, the refusals, and reading a slice past its end.
#![tactic(auto)]

mod refusal; // Refusal: why a call is refused

ghost use Rattle.std.specs.Prelude.{◌≡◌, get_or};

pub use refusal::{Refusal, number_of};

// The largest side of an image or a map.
pub const LARGEST_SIDE: usize = 4096;

// The largest radius of a peak's window, and of a centre of mass.
pub const LARGEST_RADIUS: u32 = 16;

// The largest search radius.
pub const LARGEST_SEARCH: u32 = 255;

// The last level that a seed's box is computed for.
pub const LAST_LEVEL: u32 = 12;

// The element at a place of a slice, or another value past its end.
pub fn element_or<T: Copy>(s: &[T], at: usize, other: T) -> T
    ensures { result ≡ get_or s.now at other }
{
    s.get(at).copied().unwrap_or(other)
}
