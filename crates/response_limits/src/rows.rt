// Runs and rows of cells.
ghost use Rattle.std.specs.Prelude.{◌≡◌, ◌++◌, ℕ, ◌+◌, ◌*◌, ◌<◌, ◌≤◌, length, get_or, drop};
ghost use Rattle.std.proofs.Math.IntN.{sub_ℕ};
ghost use Rattle.lists.specs.Tab.{tab};
ghost use Rattle.lists.specs.Internal.{Sized};
ghost use Rattle.ring.specs.Ring.{ring_of};
ghost use Rattle.response.specs.Internal.{Inner, InnerSpan};
ghost use Rattle.response_limits.specs.Limits.{low_at, high_at, low_map, high_map};
ghost use Rattle.response_limits.specs.Internal.{ImageWithTable, CellsWritten, EdgesCleared};

use crate::cell::{difference, limits, samples};
use ring::RingOffsets;
use std::ops::Range;

// Writes gains[i] - costs[i] to each place.
fn differences(gains: &[u16; 32], costs: &[u16; 32], out: &mut [i32])
    requires { length out.old ≤ 32 }
    ensures { out.new ≡ tab (length out.old) (λ i. sub_ℕ (get_or gains.now i 0) (get_or costs.now i 0)) }
{
    for (i, place) in out.iter_mut().enumerate() {
        *place = difference(gains[i], costs[i]);
    }
}

// The limits of up to 32 cells of row y from column x on, all with their ring in the image. First come the naturals of
// all of them, then the differences, so that each loop handles as many cells at a time as a vector register holds.
fn run(
    low: &[u8],
    high: &[u8],
    w: usize,
    h: usize,
    radius: usize,
    t: RingOffsets,
    x: usize,
    y: usize,
    lows: &mut [i32],
    highs: &mut [i32],
)
    requires image_with_table { ImageWithTable low.now w h radius t × ImageWithTable high.now w h radius t }
    requires lows_len_bound { (length lows.old ≤ 32) × (length highs.old ≡ length lows.old)
        × (x + length lows.old ≤ w) }
    requires by_index { (i : ℕ) → i < length lows.old → Inner w h radius (x + i) y }
    ensures { CellsWritten low.now high.now w h radius x y lows.old
        highs.old lows.new highs.new }
{
    let mut low_gains = [0u16; 32];
    let mut low_costs = [0u16; 32];
    let mut high_gains = [0u16; 32];
    let mut high_costs = [0u16; 32];
    for j in 0..lows.len() {
        let p = samples(low, w, h, radius, t, x + j, y);
        let q = samples(high, w, h, radius, t, x + j, y);
        let l = limits(p, q);
        low_gains[j] = l.low_gain;
        low_costs[j] = l.low_cost;
        high_gains[j] = l.high_gain;
        high_costs[j] = l.high_cost;
    }
    differences(&low_gains, &low_costs, lows);
    differences(&high_gains, &high_costs, highs);
}

// The limits of the cells of row y from column x on, all with their ring in the image.
fn inner(
    low: &[u8],
    high: &[u8],
    w: usize,
    h: usize,
    radius: usize,
    t: RingOffsets,
    x: usize,
    y: usize,
    lows: &mut [i32],
    highs: &mut [i32],
)
    requires image_with_table { ImageWithTable low.now w h radius t × ImageWithTable high.now w h radius t }
    requires highs_len { (length highs.old ≡ length lows.old) × (x + length lows.old ≤ w) }
    requires by_index { (i : ℕ) → i < length lows.old → Inner w h radius (x + i) y }
    ensures { CellsWritten low.now high.now w h radius x y lows.old
        highs.old lows.new highs.new }
{
    let n = lows.len();
    let mut i = 0usize;
    // Not a range: a step is as long as the run.
    while i < n {
        let e = n.min(i + 32);
        run(
            low,
            high,
            w,
            h,
            radius,
            t,
            x + i,
            y,
            &mut lows[i..e],
            &mut highs[i..e],
        );
        i = e;
    }
}

// Which cells of row y have their ring in the image.
fn reach(w: usize, h: usize, radius: usize, y: usize) -> Range<usize>
    requires { ((ring_of radius).radius ≡ radius) × (y < h) }
    ensures { InnerSpan w h (ring_of radius) radius 0 y w result.start result.end }
{
    if y < radius {
        return w..w;
    }
    if h - y <= radius {
        return w..w;
    }
    let from = w.min(radius);
    from..from.max(w.saturating_sub(radius))
}

// Sets the places before `from`, and those from `to` on, to 0.
fn clear_edges(out: &mut [i32], from: usize, to: usize)
    requires { (from ≤ to) × (to ≤ length out.old) }
    ensures { EdgesCleared from to (length out.old) out.new }
{
    out[..from].fill(0);
    out[to..].fill(0);
}

// The limits of row y: 0 within a ring radius of the edge.
fn row(
    low: &[u8],
    high: &[u8],
    w: usize,
    h: usize,
    radius: usize,
    t: RingOffsets,
    y: usize,
    lows: &mut [i32],
    highs: &mut [i32],
)
    requires image_with_table { ImageWithTable low.now w h radius t × ImageWithTable high.now w h radius t }
    requires lows_len { (length lows.old ≡ w) × (length highs.old ≡ w) × (y < h) }
    ensures lows_after { lows.new
        ≡ tab w (λ i. low_at low.now high.now w h (ring_of radius) i y) }
    ensures highs_after { highs.new
        ≡ tab w (λ i. high_at low.now high.now w h (ring_of radius) i y) }
{
    let s = reach(w, h, radius, y);
    let from = s.start;
    let to = s.end;
    clear_edges(lows, from, to);
    clear_edges(highs, from, to);
    inner(
        low,
        high,
        w,
        h,
        radius,
        t,
        from,
        y,
        &mut lows[from..to],
        &mut highs[from..to],
    );
}

// Both maps, at the start of their buffers.
pub(crate) fn fill(
    low: &[u8],
    high: &[u8],
    w: usize,
    h: usize,
    ring: u32,
    lows: &mut [i32],
    highs: &mut [i32],
)
    requires sized { Sized (length low.now) w h × Sized (length high.now) w h × ((ring_of ring).radius ≡ ring) }
    requires w_in_bounds { (h * w ≤ length lows.old) × (h * w ≤ length highs.old) }
    ensures lows_after { lows.new ≡ low_map low.now high.now w h (ring_of ring)
        ++ drop (h * w) lows.old }
    ensures highs_after { highs.new ≡ high_map low.now high.now w h (ring_of ring)
        ++ drop (h * w) highs.old }
{
    let t = ring::ring_offsets(ring);
    let radius = ring as usize;
    for y in 0..h {
        let a = y * w;
        let e = a + w;
        row(
            low,
            high,
            w,
            h,
            radius,
            t,
            y,
            &mut lows[a..e],
            &mut highs[a..e],
        );
    }
}
