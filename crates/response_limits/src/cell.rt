// What the exact response of one cell can be: its samples in two images, and the naturals whose differences are the two
// limits.
ghost use Rattle.std.specs.Prelude.{◌≡◌, ℕ, ◌+◌, ◌-◌, ◌*◌, ◌<◌, ◌≤◌, length, get_or};
ghost use Rattle.std.proofs.Math.IntN.{sub_ℕ};
ghost use Rattle.lists.specs.Limits.{largest_side};
ghost use Rattle.lists.specs.Tab.{tab, pixel};
ghost use Rattle.response.specs.Internal.{Inner};
ghost use Rattle.response_limits.specs.Limits.{range_at, least_dist, sr_least, dr_least, ring_range};
ghost use Rattle.response_limits.specs.Internal.{ImageWithTable, SamplesOf, gain_of, cost_of, limits_of};

use ring::RingOffsets;

// The least that |A - B| can be, with A from a up to c and B from b up to d. With (a, b) and (c, d) swapped it is the
// greatest. For bytes, sixteen of which fill a vector register, and for wider numbers: one function for both would need
// a trait with both operations, longer than the second function.
fn byte_apart(a: u8, b: u8, c: u8, d: u8) -> u16
    ensures { (result ≡ least_dist (record { low = a; high = c }) (record { low = b; high = d })) × (result < 256) }
{
    u16::from(a.saturating_sub(d).max(b.saturating_sub(c)))
}

fn apart(a: u16, b: u16, c: u16, d: u16) -> u16
    ensures { result ≡ least_dist (record { low = a; high = c }) (record { low = b; high = d }) }
{
    a.saturating_sub(d).max(b.saturating_sub(c))
}

// The sum of two bytes.
fn pair(a: u8, b: u8) -> u16
    ensures { (result ≡ a + b) × (result ≤ 510) }
{
    u16::from(a) + u16::from(b)
}

// SR of sixteen samples, each term at its least.
fn sr(p: [u8; 16], q: [u8; 16]) -> u16
    ensures { (result ≡ sr_least (range_at p q)) × (result ≤ 2040) }
{
    let mut sr = 0u16;
    for k in 0..4 {
        let a = pair(p[k], p[k + 8]);
        let b = pair(p[k + 4], p[k + 12]);
        let c = pair(q[k], q[k + 8]);
        let d = pair(q[k + 4], q[k + 12]);
        sr += apart(a, b, c, d);
    }
    sr
}

// DR likewise.
fn dr(p: [u8; 16], q: [u8; 16]) -> u16
    ensures { (result ≡ dr_least (range_at p q)) × (result ≤ 2040) }
{
    let mut dr = 0u16;
    for k in 0..8 {
        dr += byte_apart(p[k], p[k + 8], q[k], q[k + 8]);
    }
    dr
}

// The sum of sixteen samples, by pairs.
fn ring_sum(p: [u8; 16]) -> u16
    ensures { (result ≡ (ring_range (range_at p p)).low) × (result ≤ 4080) }
{
    let mut sum = 0u16;
    for k in 0..8 {
        sum += pair(p[k], p[k + 8]);
    }
    sum
}

// The natural from which a limit subtracts another, and that other, for samples p and q and crosses c and d: SR, DR and
// the distance of the means at their least. With the two images swapped they are at their greatest.
fn gain(p: [u8; 16], q: [u8; 16]) -> u16
    ensures { result ≡ gain_of p q }
{
    5 * sr(p, q)
}

fn cost(p: [u8; 16], q: [u8; 16], c: u16, d: u16) -> u16
    requires { (c ≤ 1275) × (d ≤ 1275) }
    ensures { result ≡ cost_of p q c d }
{
    let off = apart(5 * ring_sum(p), 16 * c, 5 * ring_sum(q), 16 * d);
    5 * dr(p, q) + off
}

// The samples of a cell, and the sum of its cross.
#[derive(Clone, Copy)]
pub(crate) struct CellSamples {
    pub(crate) ring: [u8; 16],
    pub(crate) cross: u16,
}

// The low limit of a cell is low_gain - low_cost, and the high one high_gain - high_cost.
#[derive(Clone, Copy)]
pub(crate) struct CellLimits {
    pub(crate) low_gain: u16,
    pub(crate) low_cost: u16,
    pub(crate) high_gain: u16,
    pub(crate) high_cost: u16,
}

// The place of the pixel `column` columns and `row` rows after column x and row y, in an image w wide.
fn place(w: usize, x: usize, y: usize, column: u8, row: u8) -> usize
    requires { (w ≤ largest_side) × (x ≤ largest_side) × (y ≤ largest_side) }
    ensures { result ≡ (y + row) * w + (x + column) }
{
    (y + usize::from(row)) * w + (x + usize::from(column))
}

// The pixels at the places of a ring whose square begins at column x and row y.
fn gather(img: &[u8], w: usize, x: usize, y: usize, columns: [u8; 16], rows: [u8; 16]) -> [u8; 16]
    requires w_le_largest_side { (w ≤ largest_side) × (x ≤ largest_side) × (y ≤ largest_side) }
    requires by_index { (k : ℕ) → k < 16 → (y + get_or rows k 0) * w + (x + get_or columns k 0) < length img.now }
    ensures { result ≡ tab 16 (λ k. pixel img.now w (x + get_or columns k 0) (y + get_or rows k 0)) }
{
    let mut s = [0u8; 16];
    for k in 0..16 {
        s[k] = img[place(w, x, y, columns[k], rows[k])];
    }
    s
}

// The sum of the cross around the pixel at mid.
fn cross(img: &[u8], w: usize, mid: usize) -> u16
    requires { (w ≤ mid) × (1 ≤ mid) × (mid + w < length img.now) × (mid + 1 < length img.now) }
    ensures { (result ≡ get_or img.now mid 0 + get_or img.now (mid - w) 0 + get_or
        img.now (mid + w) 0 + get_or img.now (mid + 1) 0 + get_or img.now
        (mid - 1) 0) × (result ≤ 1275) }
{
    let centre = u16::from(img[mid]);
    let down = pair(img[mid - w], img[mid + w]);
    let across = pair(img[mid + 1], img[mid - 1]);
    centre + down + across
}

// The samples of a cell whose ring lies in the image, and the sum of its cross.
pub(crate) fn samples(
    img: &[u8],
    w: usize,
    h: usize,
    radius: usize,
    t: RingOffsets,
    x: usize,
    y: usize,
) -> CellSamples
    requires image_with_table { ImageWithTable img.now w h radius t }
    requires inner { Inner w h radius x y }
    ensures { SamplesOf img.now w radius x y result }
{
    CellSamples {
        ring: gather(img, w, x - radius, y - radius, t.columns, t.rows),
        cross: cross(img, w, y * w + x),
    }
}

// The limits of a cell, from its samples in the low and in the high image.
pub(crate) fn limits(low: CellSamples, high: CellSamples) -> CellLimits
    requires { (low.cross ≤ 1275) × (high.cross ≤ 1275) }
    ensures { result ≡ limits_of low high }
{
    let p = low.ring;
    let q = high.ring;
    CellLimits {
        low_gain: gain(p, q),
        low_cost: cost(q, p, high.cross, low.cross),
        high_gain: gain(q, p),
        high_cost: cost(p, q, low.cross, high.cross),
    }
}

// gain - cost.
pub(crate) fn difference(gain: u16, cost: u16) -> i32
    ensures { result ≡ sub_ℕ gain cost }
{
    i32::from(gain) - i32::from(cost)
}
