// The response of one cell: the sums over its sixteen samples and its cross, and the float computed from them.
ghost use Rattle.std.specs.Prelude.{◌≡◌, ℕ, ◌+◌, ◌-◌, ◌<◌, ◌≤◌, max, length, get_or};
ghost use Rattle.float32.specs.Value.{dist};
ghost use Rattle.lists.specs.Limits.{largest_map};
ghost use Rattle.lists.specs.Tab.{tab};
ghost use Rattle.ring.specs.Ring.{ring_of};
ghost use Rattle.response.specs.Response.{response_of};
ghost use Rattle.response.specs.OnePass.{with_pair, RingPassed};
ghost use Rattle.response.specs.Internal.{Bytes, ImageWithOffsets, Inner, SumsBounded, CellSumsOf, tile_rows};

use crate::Held;
use crate::tile::Tile;

// The greater of two numbers. They are compared as i16: the machine's vector instructions can compare i16, but not u16.
fn most(a: u16, b: u16) -> u16
    requires { (a < 32768) × (b < 32768) }
    ensures { result ≡ max a b }
{
    if (a as i16) < (b as i16) { b } else { a }
}

// |a - b|, as twice the greater minus the sum: the terms of a cell share the sums, and the compiler adds those up once.
fn gap(a: u16, b: u16) -> u16
    requires { (a < 1024) × (b < 1024) }
    ensures { result ≡ dist a b }
{
    let m = most(a, b);
    m + m - (a + b)
}

// Adds pair k, whose samples are a and b. From the fifth pair on, its sum is compared with that of the pair a quarter
// turn before.
fn with_pair(h: Held, k: usize, a: u16, b: u16) -> Held
    requires { (k < 8) × SumsBounded k h × (a < 256) × (b < 256) }
    ensures { (result ≡ with_pair k a b h) × SumsBounded (k + 1) result }
{
    let mut first = h.first;
    let q = a + b;
    let dr = h.dr + gap(a, b);
    let sum = h.sum + q;
    if k < 4 {
        first[k] = q;
        return Held {
            dr,
            sum,
            first,
            ..h
        };
    }
    Held {
        sr: h.sr + gap(first[k - 4], q),
        dr,
        sum,
        ..h
    }
}

// SR, DR and the sum of sixteen samples after the first n pairs, in one pass over them: after all eight if n is 8 or
// more.
pub(crate) fn ring_sums(s: [u16; 16], n: usize) -> Held
    requires { Bytes s }
    ensures { RingPassed s n result }
{
    let mut h = Held {
        sr: 0,
        dr: 0,
        sum: 0,
        first: [0u16; 4],
    };
    for k in 0..n.min(8) {
        h = with_pair(h, k, s[k], s[k + 8]);
    }
    h
}

// The pixels at the given offsets from `base`. The four of a quarter turn, which are compared with each other, are read
// one after the other: the compiler keeps that order, and then fewer of them have to be held at a time.
fn gather(tile: &[u16], base: usize, off: [usize; 16]) -> [u16; 16]
    requires { ((k : ℕ) → k < 16 → base + get_or off k 0 < length tile.now) × (length tile.now ≤ largest_map) }
    ensures { result ≡ tab 16 (λ k. get_or tile.now (base + get_or off k 0) 0) }
{
    let mut s = [0u16; 16];
    for k in 0..4 {
        s[k + 4] = tile[base + off[k + 4]];
        s[k] = tile[base + off[k]];
        s[k + 12] = tile[base + off[k + 12]];
        s[k + 8] = tile[base + off[k + 8]];
    }
    s
}

// The sum of the cross around the pixel at `mid`, in rows of s places.
fn cross(tile: &[u16], s: usize, mid: usize) -> u16
    requires { Bytes tile.now × (s ≤ mid) × (1 ≤ mid) × (mid + s < length tile.now)
        × (mid + 1 < length tile.now) × (length tile.now ≤ largest_map) }
    ensures { result ≡ get_or tile.now mid 0 + get_or tile.now (mid - s) 0 + get_or
        tile.now (mid + s) 0 + get_or tile.now (mid + 1) 0 + get_or tile.now
        (mid - 1) 0 }
{
    tile[mid] + tile[mid - s] + tile[mid + s] + tile[mid + 1] + tile[mid - 1]
}

// The whole numbers of a cell's response: SR - DR, plus 4096 so that it is not negative, the sum of the ring, and the
// sum of the cross.
#[derive(Clone, Copy)]
pub(crate) struct CellSums {
    pub(crate) balance: u16,
    pub(crate) sum: u16,
    pub(crate) cross: u16,
}

// The sums of a cell of a tile. Its ring lies in the tile.
pub(crate) fn cell_sums<const ROW: usize, const PLACES: usize>(
    tile: &Tile<ROW, PLACES>,
    radius: usize,
    off: [usize; 16],
    x: usize,
    y: usize,
) -> CellSums
    requires { ImageWithOffsets tile.now.places ROW tile_rows (ring_of radius) radius off
        × Inner ROW tile_rows radius x y }
    ensures { CellSumsOf tile.now.places ROW (ring_of radius) x y result.balance result.sum result.cross }
{
    let base = (y - radius) * ROW + (x - radius);
    let ring = ring_sums(gather(&tile.places, base, off), 8);
    CellSums {
        balance: ring.sr + 4096 - ring.dr,
        sum: ring.sum,
        cross: cross(&tile.places, ROW, y * ROW + x),
    }
}

// SR - DR - 16 |ring mean - cross mean|, with the bits that the operations of `chess_response_at_u8` give. SR - DR is
// computed as the balance minus 4096: as a float, the difference of two whole numbers depends only on its value. The
// factor 16 is taken into the means, since it changes no rounding: 16 ring means are the sum, and 16 fifths are a
// division by 5 / 16.
pub(crate) fn value(balance: u16, sum: u16, cross: u16) -> f32
    ensures { result ≡ response_of balance 4096 sum cross }
{
    let fifths = (cross as f32) / 0.3125;
    (balance as f32) - 4096.0 - float32::abs((sum as f32) - fifths)
}
