// Operations on f32 that Rust's `std` has and Rattle lacks, or lacks for some values. Each is total.
#![tactic(auto)]

ghost use Rattle.std.specs.Prelude.{◌≡◌, from_bits, to_bits};
ghost use Rattle.std.specs.Float.{binary32};
ghost use Rattle.std.specs.Float.Ieee.{to_unsigned};
ghost use Rattle.std.specs.Float.Ieee.Scale.{finite};
ghost use Rattle.float32.specs.Float32.{abs as abs_of, lift, between, Rounds};

// |x|: -0.0 becomes 0.0, and a NaN stays. One comparison, where std's `abs` has two: a loop over many values is faster.
pub fn abs(x: f32) -> f32
    ensures { result ≡ abs_of x }
{
    if x <= 0.0 { 0.0 - x } else { x }
}

pub fn is_finite(x: f32) -> bool
    ensures { result ≡ finite x }
{
    x.is_finite()
}

// x if it is above 0, else 0.0: NaN and negatives become 0. std's `max` leaves open which zero it gives for -0.0.
pub fn lifted(x: f32) -> f32
    ensures { result ≡ lift x }
{
    if 0.0 < x { x } else { 0.0 }
}

// Whether x is from lo to hi, both included; a NaN is not.
pub fn is_between(lo: f32, hi: f32, x: f32) -> bool
    ensures { result ≡ between lo hi x }
{
    lo <= x && x <= hi
}

// The float of any 32 bits. `f32::from_bits` is undefined for the bit pattern of a NaN; here each of them gives the one
// NaN.
pub fn from_bits(n: u32) -> f32
    ensures { result ≡ from_bits binary32 n }
{
    if 0x7f80_0000 < n % 0x8000_0000 {
        return f32::NAN;
    }
    f32::from_bits(n)
}

// The 32 bits of a float; 0x7fc00000 for a NaN.
pub fn to_bits(x: f32) -> u32
    ensures { result ≡ to_bits binary32 x }
{
    if x.is_nan() {
        return 0x7fc0_0000;
    }
    f32::to_bits(x)
}

// Rust's `x as usize`: cut off toward zero, 0 for a NaN and for negatives, the largest usize from 2^64 on.
pub fn cut_off(x: f32) -> usize
    ensures { result ≡ to_unsigned 64 x }
{
    std::num::saturating_f32_to_usize(x)
}

// A float rounded to a whole number: not negative, negative (its absolute value), or not rounded.
#[derive(Clone, Copy)]
pub enum Rounded {
    Natural(usize),
    Negative(usize),
    Beyond,
}

// The largest absolute value that is rounded, 2^24.
pub const LARGEST_ROUNDED: f32 = 16777216.0;

// Rust's `x.round()`: halves round away from zero. `Beyond` for a NaN and if |x| is above 2^24.
// Twice a float is exact; x + 0.5 is not, and would round 0.49999997 to 1.
pub fn round_half_away(x: f32) -> Rounded
    ensures { Rounds x result }
{
    let a = abs(x);
    if a <= LARGEST_ROUNDED {
        let n = (cut_off(a + a) + 1) / 2;
        if x < 0.0 {
            if n == 0 {
                return Rounded::Natural(0);
            }
            return Rounded::Negative(n);
        }
        return Rounded::Natural(n);
    }
    Rounded::Beyond
}
