// Whether a place is a peak by exact values in every image between two, by the limits of the cells (RULES 28).
#![tactic(auto)]

mod window; // window.rt: the cells around a place

ghost use Rattle.std.specs.Prelude.{◌≡◌, ◌&&◌, ◌*◌, ◌+◌, ◌≤◌, leb, ltb, pos};
ghost use Rattle.std.specs.Int.Signed.{lt_z};
ghost use Rattle.lists.specs.Limits.{largest_side, largest_border};
ghost use Rattle.lists.specs.Refusals.{verdict};
ghost use Rattle.detect.specs.Peaks.{is_peak};
ghost use Rattle.sure_peak.specs.Promise.{refusal_of, SurePeakTold};
ghost use Rattle.sure_peak.specs.Internal.{sure, Windowed};

use crate::window::count_window;
use lists::Refusal;

// Why a call is refused, for maps of `lows` and `highs` cells.
fn refusal(
    lows: usize,
    highs: usize,
    w: usize,
    h: usize,
    ring: u32,
    window: u32,
    centroid: u32,
    x: usize,
    y: usize,
) -> Result<(), Refusal>
    ensures { result
        ≡ verdict (refusal_of lows highs w h ring window centroid (record { x = x; y = y })) }
{
    image_size::refusal(lows, w, h)?;
    if highs != lows {
        return Err(Refusal::WrongLength);
    }
    if frame_params::is_outside(ring, window, centroid) {
        return Err(Refusal::OutOfRange);
    }
    if w <= x || h <= y {
        return Err(Refusal::PlaceOutside);
    }
    Ok(())
}

// Whether a number of fifths exceeds five times the threshold. The product has 64 bits, so it does not wrap.
fn exceeds(low: i32, threshold: u32) -> bool
    ensures { result ≡ lt_z (pos (5 * threshold)) low }
{
    let wide = i64::from(low);
    let least = (5 * u64::from(threshold)) as i64;
    least < wide
}

// Whether a place of a side is no nearer to its ends than the border.
fn is_inside(side: usize, border: usize, at: usize) -> bool
    requires { (border ≤ largest_border) × (at ≤ largest_side) }
    ensures { result ≡ (leb border at && ltb (at + border) side) }
{
    border <= at && at + border < side
}

// Whether the place (x, y) of two maps that contain its window is a peak by what is sure.
fn is_sure(
    lows: &[i32],
    highs: &[i32],
    w: usize,
    h: usize,
    r: usize,
    threshold: u32,
    least: u32,
    x: usize,
    y: usize,
) -> bool
    requires { Windowed lows.now w h r (record { x = x; y = y })
        × Windowed highs.now w h r (record { x = x; y = y }) }
    ensures { result ≡ is_peak (sure lows.now highs.now w threshold) w h r least
        (record { x = x; y = y }) }
{
    let low = lows[y * w + x];
    if !exceeds(low, threshold) {
        return false;
    }
    if count_window(highs, w, h, r, x, y, low) != 0 {
        return false;
    }
    least <= count_window(lows, w, h, r, x, y, 0)
}

// Whether the place (x, y) is a sure peak of two maps of w by h, with a low and a high number of fifths for each cell:
// it lies inside the border, its low number exceeds five times the threshold and is at least every high number in its
// window, and at least `least` cells of the window have a low number above 0.
pub fn sure_peak(
    lows: &[i32],
    highs: &[i32],
    w: usize,
    h: usize,
    ring: u32,
    threshold: u32,
    window: u32,
    least: u32,
    centroid: u32,
    x: usize,
    y: usize,
) -> Result<bool, Refusal>
    ensures { SurePeakTold lows.now
        highs.now w h ring threshold window least centroid (record { x = x; y = y }) result }
{
    refusal(lows.len(), highs.len(), w, h, ring, window, centroid, x, y)?;
    let border = ring as usize + window as usize + centroid as usize;
    if !is_inside(w, border, x) || !is_inside(h, border, y) {
        return Ok(false);
    }
    Ok(is_sure(lows, highs, w, h, window as usize, threshold, least, x, y))
}
