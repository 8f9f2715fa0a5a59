// The response of one cell, computed directly from the image: a tile for one cell would take longer.
ghost use Rattle.std.specs.Prelude.{◌≡◌, ℕ, ◌+◌, ◌-◌, ◌<◌, ◌≤◌, length, get_or};
ghost use Rattle.lists.specs.Tab.{tab};
ghost use Rattle.ring.specs.Ring.{ring_of};
ghost use Rattle.response.specs.Response.{response};
ghost use Rattle.response.specs.Internal.{Bytes, ImageWithOffsets, Inner};

use crate::cell::{ring_sums, value};

// The pixels at the given offsets from `base`.
fn pick(img: &[u8], base: usize, off: [usize; 16]) -> [u16; 16]
    requires { (k : ℕ) → k < 16 → base + get_or off k 0 < length img.now }
    ensures { (result ≡ tab 16 (λ k. get_or img.now (base + get_or off k 0) 0)) × Bytes result }
{
    let mut s = [0u16; 16];
    for (k, o) in off.iter().enumerate() {
        s[k] = u16::from(img[base + *o]);
    }
    s
}

// The sum of four bytes.
fn four(a: u8, b: u8, c: u8, d: u8) -> u16
    ensures { (result ≡ a + b + c + d) × (result < 1021) }
{
    u16::from(a) + u16::from(b) + u16::from(c) + u16::from(d)
}

// The sum of the cross around the pixel at `mid`, in an image w wide.
fn middle(img: &[u8], w: usize, mid: usize) -> u16
    requires { (w ≤ mid) × (1 ≤ mid) × (mid + w < length img.now) × (mid + 1 < length img.now) }
    ensures { result ≡ get_or img.now mid 0 + get_or img.now (mid - w) 0 + get_or
        img.now (mid + w) 0 + get_or img.now (mid + 1) 0 + get_or img.now (mid - 1) 0 }
{
    four(img[mid], img[mid - w], img[mid + w], img[mid + 1]) + u16::from(img[mid - 1])
}

// The response of a cell whose ring lies in an image of w by h.
pub(crate) fn alone(
    img: &[u8],
    w: usize,
    h: usize,
    radius: usize,
    off: [usize; 16],
    x: usize,
    y: usize,
) -> f32
    requires { ImageWithOffsets img.now w h (ring_of radius) radius off × Inner w h radius x y }
    ensures { result ≡ response img.now w (ring_of radius) x y }
{
    let ring = ring_sums(pick(img, (y - radius) * w + (x - radius), off), 8);
    value(
        ring.sr + 4096 - ring.dr,
        ring.sum,
        middle(img, w, y * w + x),
    )
}
