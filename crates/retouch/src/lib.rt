// Changes a pixel of an image, and recomputes the cells of its map that depend on the pixel.
#![tactic(auto)]

mod cells; // cells.rt: the touched cells

ghost use Rattle.std.specs.Prelude.{◌≡◌};
ghost use Rattle.lists.specs.Refusals.{verdict};
ghost use Rattle.retouch.specs.Promise.{place_outside, refusal_of, Retouches};

use crate::cells::redo_touched;
use lists::Refusal;

// Whether an image of w by h has no pixel (x, y).
fn is_outside(w: usize, h: usize, x: usize, y: usize) -> bool
    ensures { result ≡ place_outside w h (record { x = x; y = y }) }
{
    w <= x || h <= y
}

// Why a call is refused.
fn refusal(
    pixels: usize,
    cells: usize,
    w: usize,
    h: usize,
    ring: u32,
    x: usize,
    y: usize,
) -> Result<(), Refusal>
    ensures { result ≡ verdict (refusal_of pixels cells w h ring (record { x = x; y = y })) }
{
    image_size::refusal(pixels, w, h)?;
    image_size::refusal(cells, w, h)?;
    if !ring::is_ring(ring) {
        return Err(Refusal::OutOfRange);
    }
    if is_outside(w, h, x, y) {
        return Err(Refusal::PlaceOutside);
    }
    Ok(())
}

// Changes the pixel (x, y) of an image of w by h to `value`, and recomputes the cells of its map that are not within a
// ring radius of the edge and whose sixteen or five samples contain the pixel. Returns how many cells that is. The
// ring's radius is 5 or 10. A refusal leaves image and map unchanged.
pub fn retouch(
    img: &mut [u8],
    w: usize,
    h: usize,
    ring: u32,
    map: &mut [f32],
    x: usize,
    y: usize,
    value: u8,
) -> Result<usize, Refusal>
    ensures { Retouches w h ring (record { x = x; y = y }) value img.old
        map.old result img.new map.new }
{
    refusal(img.len(), map.len(), w, h, ring, x, y)?;
    img[y * w + x] = value;
    let cells = redo_touched(img, w, h, ring, x, y, map);
    Ok(cells)
}
