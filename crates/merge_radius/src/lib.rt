// The radius within which corners are merged.
#![tactic(auto)]

ghost use Rattle.std.specs.Prelude.{◌≡◌};
ghost use Rattle.merge_radius.specs.MergeRadius.{is_off, is_sized, radius_outside};

// Whether a radius is off: not finite, or at most 0.
pub fn is_off(radius: f32) -> bool
    ensures { result ≡ is_off radius }
{
    !float32::is_finite(radius) || radius <= 0.0
}

// The least radius, 1/64.
const LEAST: f32 = 0.015625;

// The largest radius.
const LARGEST: f32 = 4096.0;

// Whether a radius is from the least to the largest.
pub fn is_sized(radius: f32) -> bool
    ensures { result ≡ is_sized radius }
{
    float32::is_between(LEAST, LARGEST, radius)
}

// Whether a radius is neither off nor in its range.
pub fn is_outside(radius: f32) -> bool
    ensures { result ≡ radius_outside radius }
{
    !is_off(radius) && !is_sized(radius)
}
