// The ChESS response map of a box of an image.
#![tactic(auto)]

mod alone; // alone.rt: the response of one cell straight from the image
mod cell; // cell.rt: the response of one cell
mod rows; // rows.rt: a map, edges and blocks
mod runs; // runs.rt: runs of cells
mod tile; // tile.rt: the pixels of a block

ghost use Rattle.std.specs.Prelude.{◌≡◌, ◌*◌, ◌≤◌};
ghost use Rattle.lists.specs.Refusals.{verdict};
ghost use Rattle.ring.specs.Ring.{ring_of};
ghost use Rattle.response.specs.Patch.{side_of, besides, InnerPatched, Patched};
ghost use Rattle.response.specs.Internal.{refusal_for};

use lists::Refusal;

// What is kept from the pairs of opposite samples read so far: SR, DR and the sum, and the sums of the first four
// pairs. Public because a promise mentions it.
#[derive(Clone, Copy)]
pub struct Held {
    pub sr: u16,
    pub dr: u16,
    pub sum: u16,
    pub first: [u16; 4],
}

// How many of the columns, or rows, a up to b lie among n.
fn side(n: usize, a: usize, b: usize) -> usize
    ensures { result ≡ side_of n a b }
{
    b.min(n).saturating_sub(a.min(n))
}

// A side, or 0 if the other is 0.
fn beside(own: usize, other: usize) -> usize
    ensures { result ≡ besides own other }
{
    if other == 0 { 0 } else { own }
}

// Why no map of pw by ph cells of an image with so many pixels is made in a buffer with so many places.
fn refusal(
    pixels: usize,
    w: usize,
    h: usize,
    ring: u32,
    pw: usize,
    ph: usize,
    places: usize,
) -> Result<(), Refusal>
    requires { (pw ≤ w) × (ph ≤ h) }
    ensures { result ≡ verdict (refusal_for pixels w h ring (ph * pw) places) }
{
    image_size::refusal(pixels, w, h)?;
    if !ring::is_ring(ring) {
        return Err(Refusal::OutOfRange);
    }
    if places < ph * pw {
        return Err(Refusal::MapTooShort);
    }
    Ok(())
}

// The sides of a map, whose cells are at the start of the buffer.
#[derive(Clone, Copy)]
pub struct Patch {
    pub w: usize,
    pub h: usize,
}

// The responses of the cells in the columns x0 up to x1 and the rows y0 up to y1 of an image of w by h pixels, in row
// order at the start of `map`. Cells nearer than `margin` to an edge of the box are 0. The box is clipped to the image.
// The ring's radius is 5 or 10. A refusal leaves the buffer as it was.
pub fn inner_patch(
    img: &[u8],
    w: usize,
    h: usize,
    ring: u32,
    x0: usize,
    y0: usize,
    x1: usize,
    y1: usize,
    margin: usize,
    map: &mut [f32],
) -> Result<Patch, Refusal>
    ensures { InnerPatched (record
        { img = img.now; w = w; h = h; ring = ring_of ring; x0 = x0; y0 = y0; x1 = x1; y1 = y1 })
        margin ring map.old result map.new }
{
    let across = side(w, x0, x1);
    let down = side(h, y0, y1);
    let pw = beside(across, down);
    let ph = beside(down, across);
    refusal(img.len(), w, h, ring, pw, ph, map.len())?;
    rows::fill(img, w, h, ring, x0.min(w), y0.min(h), pw, ph, margin, map);
    Ok(Patch { w: pw, h: ph })
}

// The same for all cells.
pub fn chess_response_u8_patch(
    img: &[u8],
    w: usize,
    h: usize,
    ring: u32,
    x0: usize,
    y0: usize,
    x1: usize,
    y1: usize,
    map: &mut [f32],
) -> Result<Patch, Refusal>
    ensures { Patched (record
        { img = img.now; w = w; h = h; ring = ring_of ring; x0 = x0; y0 = y0; x1 = x1; y1 = y1 }) ring
        map.old result map.new }
{
    inner_patch(img, w, h, ring, x0, y0, x1, y1, 0, map)
}
