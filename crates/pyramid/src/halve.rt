// Halving: a level at half size, written after the levels before it. A level above the first is read from the buffer
// that is written.
ghost use Rattle.std.specs.Prelude.{◌≡◌, ℕ, ◌+◌, ◌*◌, ◌/◌, ◌<◌, ◌≤◌, length, get_or};
ghost use Rattle.lists.specs.Tab.{tab};
ghost use Rattle.pyramid_levels.specs.Levels.{cells_above};
ghost use Rattle.pyramid.specs.Pyramid.{box_of};
ghost use Rattle.pyramid.specs.Internal.{pixels_at_once, holder_of, Halving, Run, MeansMade, RunHalved, RowHalved};
ghost use Rattle.pyramid.specs.Internal.{LevelHalved, LevelsFilled};

// How many pixels of half size are made at a time: as many as a vector register holds.
const PIXELS: usize = 16;

// The slice that has level k.
fn holder<'a>(base: &'a [u8], levels: &'a [u8], k: usize) -> &'a [u8]
    ensures { result.now ≡ holder_of base.now levels.now k }
{
    if k == 0 { base } else { levels }
}

// The mean of four pixels.
fn mean(a: u8, b: u8, c: u8, d: u8) -> u8
    ensures { result ≡ box_of a b c d }
{
    ((a as u16 + b as u16 + c as u16 + d as u16 + 2) / 4) as u8
}

// The half-size pixels of n pairs of columns of two rows, which begin at top and at low.
fn means(pixels: &[u8], top: usize, low: usize, n: usize, out: &mut [u8; PIXELS])
    requires { (n ≤ pixels_at_once) × (top + 2 * n ≤ length pixels.now) × (low + 2 * n ≤ length pixels.now)
        × (length out.old ≡ pixels_at_once) }
    ensures { MeansMade pixels.now top low n out.new }
{
    for i in 0..n {
        let a = top + 2 * i;
        let b = low + 2 * i;
        out[i] = mean(pixels[a], pixels[a + 1], pixels[b], pixels[b + 1]);
    }
}

// The half-size pixels of n pairs of columns of level k, in the row that begins at `top` and the row w places further
// on, from `at` on. What the buffer holds is read before it is written.
fn run(base: &[u8], k: usize, top: usize, w: usize, levels: &mut [u8], at: usize, n: usize)
    requires { Run base.now levels.old k top w at n }
    ensures { RunHalved base.now levels.old k top w at n levels.new }
{
    let mut made = [0u8; PIXELS];
    means(holder(base, levels, k), top, top + w, n, &mut made);
    levels[at..at + n].copy_from_slice(&made[..n]);
}

// The same. A whole run has its number written out: so the compiler makes code for it without a loop, with vectors.
fn halve_run(base: &[u8], k: usize, top: usize, w: usize, levels: &mut [u8], at: usize, n: usize)
    requires { Run base.now levels.old k top w at n }
    ensures { RunHalved base.now levels.old k top w at n levels.new }
{
    if n == PIXELS {
        run(base, k, top, w, levels, at, PIXELS);
    } else {
        run(base, k, top, w, levels, at, n);
    }
}

// Two rows of level k, which begin at `from`, at half size from `to` on, run by run.
fn halve_rows(base: &[u8], k: usize, from: usize, w: usize, levels: &mut [u8], to: usize)
    requires { Halving base.now levels.old k from w 2 to }
    ensures { RowHalved base.now levels.old k from w to (w / 2) levels.new }
{
    let n = w / 2;
    for x in (0..n).step_by(PIXELS) {
        let m = PIXELS.min(n - x);
        halve_run(base, k, from + 2 * x, w, levels, to + x, m);
    }
}

// Level k, of w by h, which begins at `from`, at half size from `to` on.
fn halve(base: &[u8], k: usize, from: usize, w: usize, h: usize, levels: &mut [u8], to: usize)
    requires { Halving base.now levels.old k from w h to }
    ensures { LevelHalved base.now levels.old k from w to (h / 2) levels.new }
{
    let mut a = from;
    let mut at = to;
    for _y in 0..h / 2 {
        halve_rows(base, k, a, w, levels, at);
        a += 2 * w;
        at += w / 2;
    }
}

// Levels 1 .. n - 1, one after the other, at the start of the level buffer.
pub(crate) fn fill_levels(base: &[u8], width: usize, height: usize, n: usize, levels: &mut [u8])
    requires { (length base.now ≡ width * height) × (cells_above width height n ≤ length levels.old) }
    ensures { LevelsFilled base.now width height n levels.old levels.new }
{
    let mut w = width;
    let mut h = height;
    let mut from = 0usize;
    let mut to = 0usize;
    for k in 1..n {
        halve(base, k - 1, from, w, h, levels, to);
        w /= 2;
        h /= 2;
        from = to;
        to += w * h;
    }
}
