// Recomputes the cells that depend on a pixel.
ghost use Rattle.std.specs.Prelude.{◌≡◌, [], ◌∷◌, ◌+◌, ◌*◌, ◌<◌, ◌≤◌, get_or};
ghost use Rattle.lists.specs.Limits.{largest_side, largest_ring};
ghost use Rattle.ring.specs.Ring.{ring_of};
ghost use Rattle.retouch.specs.Retouch.{sample_places, touched_count, redone};
ghost use Rattle.retouch.specs.Internal.{PixelChecked, fits, count_by, redone_by};

// Place k of the twenty-one that a response samples, sixteen of the ring and five of the cross: its column and row,
// counted from the corner of the square around the cell.
fn sample_place(ring: u32, k: usize) -> (usize, usize)
    requires { (k < 21) × (1 ≤ (ring_of ring).radius) }
    ensures { result ≡ get_or (sample_places (ring_of ring)) k (0, 0) }
{
    let t = ring::ring_offsets(ring);
    let radius = t.radius as usize;
    match k {
        16 => (radius, radius),
        17 => (radius, radius - 1),
        18 => (radius, radius + 1),
        19 => (radius + 1, radius),
        20 => (radius - 1, radius),
        _ => (usize::from(t.columns[k]), usize::from(t.rows[k])),
    }
}

// Whether, along one side, a pixel is at a place of a square that lies in the image.
fn is_fit(side: usize, radius: usize, at: usize, place: usize) -> bool
    requires { (radius ≤ largest_ring) × (at < largest_side) }
    ensures { result ≡ fits side radius at place }
{
    place <= at && at - place + 2 * radius < side
}

// Recomputes the cell that has the pixel (x, y) at the place (column, row) of its square, unless the cell is within a
// ring radius of the edge. Returns how many cells that is.
fn redo(
    img: &[u8],
    w: usize,
    h: usize,
    ring: u32,
    x: usize,
    y: usize,
    column: usize,
    row: usize,
    map: &mut [f32],
) -> usize
    requires { PixelChecked img.now w h ring (record { x = x; y = y }) map.old }
    ensures map_after { map.new
        ≡ redone_by ((column, row) ∷ []) img.now w h (ring_of ring) (record { x = x; y = y })
        map.old }
    ensures value { (result ≡ count_by ((column, row) ∷ []) w h (ring_of ring) (record { x = x; y = y }))
        × (result ≤ 1) }
{
    let radius = ring as usize;
    if !is_fit(w, radius, x, column) {
        return 0;
    }
    if !is_fit(h, radius, y, row) {
        return 0;
    }
    let i = x - column + radius;
    let j = y - row + radius;
    let a = j * w + i;
    let e = a + 1;
    // Not refused: the cell is one of the map's.
    let _ = response::chess_response_u8_patch(img, w, h, ring, i, j, i + 1, j + 1, &mut map[a..e]);
    1
}

// Recomputes every cell that depends on the pixel (x, y), and returns how many there are.
pub(crate) fn redo_touched(
    img: &[u8],
    w: usize,
    h: usize,
    ring: u32,
    x: usize,
    y: usize,
    map: &mut [f32],
) -> usize
    requires { PixelChecked img.now w h ring (record { x = x; y = y }) map.old }
    ensures map_after { map.new
        ≡ redone img.now w h (ring_of ring) (record { x = x; y = y }) map.old }
    ensures value { result ≡ touched_count w h (ring_of ring) (record { x = x; y = y }) }
{
    let mut n = 0usize;
    for k in 0..21 {
        let (column, row) = sample_place(ring, k);
        n += redo(img, w, h, ring, x, y, column, row, map);
    }
    n
}
