// What the exact response of each cell can be, in fifths, if each pixel is known between a low and a high value (RULES
// 28).
#![tactic(auto)]

mod cell; // cell.rt: the limits of one cell
mod rows; // rows.rt: runs and rows of cells

ghost use Rattle.std.specs.Prelude.{◌≡◌, ◌||◌, ltb, length};
ghost use Rattle.lists.specs.Refusals.{verdict};
ghost use Rattle.response_limits.specs.Promise.{is_crossed, refusal_of, LimitsWritten};

use lists::Refusal;

// Whether a pixel's low value is above its high one: computes the largest excess, 0 if there is none. The loop has no
// early exit, so that it handles as many pixels at a time as a vector register holds.
fn are_crossed(low: &[u8], high: &[u8]) -> bool
    requires { length high.now ≡ length low.now }
    ensures { result ≡ is_crossed low.now high.now }
{
    let mut most = 0u8;
    for (i, pixel) in low.iter().enumerate() {
        most = most.max(pixel.saturating_sub(high[i]));
    }
    most != 0
}

// Whether one of two buffers has fewer places than a map has cells.
fn is_short(lows: usize, highs: usize, cells: usize) -> bool
    ensures { result ≡ (ltb lows cells || ltb highs cells) }
{
    lows < cells || highs < cells
}

// Why a call is refused, for two images, and buffers of `lows` and `highs` places.
fn refusal(
    low: &[u8],
    high: &[u8],
    w: usize,
    h: usize,
    ring: u32,
    lows: usize,
    highs: usize,
) -> Result<(), Refusal>
    ensures { result ≡ verdict (refusal_of low.now high.now w h ring lows highs) }
{
    image_size::refusal(low.len(), w, h)?;
    if high.len() != low.len() {
        return Err(Refusal::WrongLength);
    }
    if are_crossed(low, high) {
        return Err(Refusal::LowAboveHigh);
    }
    if !ring::is_ring(ring) {
        return Err(Refusal::OutOfRange);
    }
    if is_short(lows, highs, w * h) {
        return Err(Refusal::MapTooShort);
    }
    Ok(())
}

// Writes a low and a high number of fifths for each cell of an image of w by h, each pixel of which is known to lie
// from `low` up to `high`, in row order to the start of `lows` and `highs`. The exact response of every image between
// the two lies between the two numbers. The ring's radius is 5 or 10. A refusal leaves both buffers unchanged.
pub fn response_limits(
    low: &[u8],
    high: &[u8],
    w: usize,
    h: usize,
    ring: u32,
    lows: &mut [i32],
    highs: &mut [i32],
) -> Result<(), Refusal>
    ensures { LimitsWritten low.now high.now w h ring lows.old
        highs.old result lows.new highs.new }
{
    refusal(low, high, w, h, ring, lows.len(), highs.len())?;
    rows::fill(low, high, w, h, ring, lows, highs);
    Ok(())
}
