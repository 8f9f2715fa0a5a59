// A map: its cells, computed block by block. Cells near the image's edges, and cells nearer to the map's own edges than
// a margin, are 0.
ghost use Rattle.std.specs.Prelude.{◌≡◌, cond, ◌++◌, ◌+◌, ◌*◌, ◌<◌, ◌≤◌, length, drop};
ghost use Rattle.lists.specs.Limits.{largest_map};
ghost use Rattle.float32.specs.Float32.{zero};
ghost use Rattle.lists.specs.Tab.{grid};
ghost use Rattle.lists.specs.Internal.{Sized};
ghost use Rattle.ring.specs.Ring.{ring_of};
ghost use Rattle.response.specs.Response.{is_within, response_at};
ghost use Rattle.response.specs.Internal.{Filled, Cleared, Stretched, Placed, InnerPart};
ghost use Rattle.response.specs.Internal.{responses};
ghost use Rattle.response.specs.Internal.{eights_of, block_columns, block_rows, small_side, beyond};

use crate::alone::alone;
use crate::runs::{eights, no_sums, row_sums, values};
use crate::tile::{BLOCK_COLUMNS, BLOCK_ROWS, LargeTile, SMALL_SIDE, SmallTile, Tile, offsets_in};
use std::ops::Range;

// A map of pw by ph cells of an image of w by h, with a ring of that radius. Its first cell is the image's cell (x, y).
#[derive(Clone, Copy)]
struct Field {
    w: usize,
    h: usize,
    radius: usize,
    x: usize,
    y: usize,
    pw: usize,
    ph: usize,
}

// Writes 0 to the cells in columns a up to b and rows c up to e, in rows of w cells.
fn clear_part(map: &mut [f32], w: usize, a: usize, b: usize, c: usize, e: usize)
    requires { (a ≤ b) × (b ≤ w) × (c ≤ e) × (e * w ≤ length map.old) × (e * w ≤ largest_map) }
    ensures { Cleared w a b c e map.old map.new }
{
    for j in c..e {
        map[j * w + a..j * w + b].fill(0.0);
    }
}

// Computes the responses of n by m cells from the map's column i and row j on, using a tile. All these cells have their
// ring in the image.
fn block<const ROW: usize, const PLACES: usize>(
    img: &[u8],
    f: Field,
    i: usize,
    j: usize,
    n: usize,
    m: usize,
    tile: &mut Tile<ROW, PLACES>,
    map: &mut [f32],
)
    requires placed { Placed (length img.now) f (length map.old) × InnerPart f i (i + n) j (j + m) }
    requires n_nonzero { (0 < n) × (n ≤ block_columns) × (0 < m) × (m ≤ block_rows) × (eights_of n + beyond ≤ ROW) }
    ensures { Filled zero f.pw f.ph (responses img.now f) i (i + n) j (j + m) map.old map.new }
{
    let r = f.radius;
    tile.widen(img, f.w, f.x + i - r, f.y + j - r, n + r + r, m + r + r);
    let mut sums = no_sums();
    for k in 0..m {
        row_sums(tile, r, r + k, eights(n), &mut sums);
        let at = (j + k) * f.pw + i;
        values(&sums, &mut map[at..at + n]);
    }
}

// Computes the responses in columns a up to b of m rows from the map's row j on.
fn band(
    img: &[u8],
    f: Field,
    a: usize,
    b: usize,
    j: usize,
    m: usize,
    tile: &mut LargeTile,
    map: &mut [f32],
)
    requires placed { Placed (length img.now) f (length map.old) × InnerPart f a b j (j + m) × (a ≤ b) }
    requires m_nonzero { (0 < m) × (m ≤ block_rows) }
    ensures { Filled zero f.pw f.ph (responses img.now f) a b j (j + m) map.old map.new }
{
    let mut i = a;
    // Not a range: a step is as wide as the block.
    while i < b {
        let n = BLOCK_COLUMNS.min(b - i);
        block(img, f, i, j, n, m, tile, map);
        i += n;
    }
}

// Computes the responses in columns a up to b and rows c up to e, of which there may be many.
fn large(img: &[u8], f: Field, a: usize, b: usize, c: usize, e: usize, map: &mut [f32])
    requires { Placed (length img.now) f (length map.old) × InnerPart f a b c e × (a ≤ b) × (c ≤ e) }
    ensures { Filled zero f.pw f.ph (responses img.now f) a b c e map.old
        map.new }
{
    let mut tile = LargeTile::new();
    let mut j = c;
    // Not a range: a step is as high as the band.
    while j < e {
        let m = BLOCK_ROWS.min(e - j);
        band(img, f, a, b, j, m, &mut tile, map);
        j += m;
    }
}

// Computes the responses of a small block, from the map's column i and row j on. A small tile takes less time to fill.
fn small(img: &[u8], f: Field, i: usize, j: usize, n: usize, m: usize, map: &mut [f32])
    requires placed { Placed (length img.now) f (length map.old) × InnerPart f i (i + n) j (j + m) }
    requires n_nonzero { (0 < n) × (n ≤ small_side) × (0 < m) × (m ≤ small_side) }
    ensures { Filled zero f.pw f.ph (responses img.now f) i (i + n) j (j + m)
        map.old map.new }
{
    let mut tile = SmallTile::new();
    block(img, f, i, j, n, m, &mut tile, map);
}

// Computes the response of the cell in the map's column i and row j.
fn single(img: &[u8], f: Field, i: usize, j: usize, map: &mut [f32])
    requires { Placed (length img.now) f (length map.old) × InnerPart f i (i + 1) j (j + 1) }
    ensures { Filled zero f.pw f.ph (responses img.now f) i (i + 1) j (j + 1)
        map.old map.new }
{
    let off = offsets_in(f.radius as u32, f.w);
    map[j * f.pw + i] = alone(img, f.w, f.h, f.radius, off, f.x + i, f.y + j);
}

// Computes the responses in columns a up to b and rows c up to e.
fn inner(img: &[u8], f: Field, a: usize, b: usize, c: usize, e: usize, map: &mut [f32])
    requires { Placed (length img.now) f (length map.old) × InnerPart f a b c e × (a ≤ b) × (c ≤ e) }
    ensures { Filled zero f.pw f.ph (responses img.now f) a b c e map.old
        map.new }
{
    let n = b - a;
    let m = e - c;
    let most = n.max(m);
    if n.min(m) == 0 {
        return;
    }
    if most == 1 {
        single(img, f, a, c, map);
        return;
    }
    if most <= SMALL_SIDE {
        small(img, f, a, c, n, m, map);
        return;
    }
    large(img, f, a, b, c, e, map);
}

// Which of n cells from place x on lie at least the radius from either end of w places, and at least the margin from
// either end of the n cells.
fn reach(w: usize, radius: usize, x: usize, n: usize, margin: usize) -> Range<usize>
    ensures { Stretched w radius x n margin result.start result.end }
{
    let from = margin.max(radius.saturating_sub(x)).min(n);
    let to = n
        .saturating_sub(margin)
        .min(w.saturating_sub(radius).saturating_sub(x))
        .max(from);
    from..to
}

// Writes the responses of pw by ph cells from column x and row y on to the start of the buffer, with 0 in the cells
// that are nearer to an edge than the margin.
pub(crate) fn fill(
    img: &[u8],
    w: usize,
    h: usize,
    ring: u32,
    x: usize,
    y: usize,
    pw: usize,
    ph: usize,
    margin: usize,
    map: &mut [f32],
)
    requires sized { Sized (length img.now) w h × ((ring_of ring).radius ≡ ring) }
    requires pw_bound { (x + pw ≤ w) × (y + ph ≤ h) × (ph * pw ≤ length map.old) }
    ensures { map.new
        ≡ grid pw ph (λ i j. cond (is_within margin pw ph i j)
        (response_at img.now w h (ring_of ring) (x + i) (y + j)) zero) ++ drop (ph * pw) map.old }
{
    let radius = ring as usize;
    let columns = reach(w, radius, x, pw, margin);
    let rows = reach(h, radius, y, ph, margin);
    let f = Field {
        w,
        h,
        radius,
        x,
        y,
        pw,
        ph,
    };
    inner(
        img,
        f,
        columns.start,
        columns.end,
        rows.start,
        rows.end,
        map,
    );
    clear_part(map, pw, 0, pw, 0, rows.start);
    clear_part(map, pw, 0, columns.start, rows.start, rows.end);
    clear_part(map, pw, columns.end, pw, rows.start, rows.end);
    clear_part(map, pw, 0, pw, rows.end, ph);
}
