// The cells of a window.
ghost use Rattle.std.specs.Prelude.{◌≡◌, ◌≤◌, length};
ghost use Rattle.std.specs.Int.Signed.{lt_z};
ghost use Rattle.lists.specs.Places.{count};
ghost use Rattle.detect.specs.Peaks.{window};
ghost use Rattle.sure_peak.specs.SurePeak.{stored_fifths};
ghost use Rattle.sure_peak.specs.Internal.{Windowed};

// How many of the cells are above v. `filter` and `count` took three times the time. The loop has no early exit, so
// that a compiler can compare several cells at a time.
fn count_above(cells: &[i32], v: i32) -> u32
    requires { length cells.now ≤ 33 }
    ensures { result ≡ count (lt_z v) cells.now }
{
    let mut n: u32 = 0;
    for cell in cells {
        if v < *cell {
            n += 1;
        }
    }
    n
}

// How many cells of the window around (x, y) are above v. The centre is counted with them and subtracted.
pub(crate) fn count_window(
    map: &[i32],
    w: usize,
    h: usize,
    r: usize,
    x: usize,
    y: usize,
    v: i32,
) -> u32
    requires { Windowed map.now w h r (record { x = x; y = y }) }
    ensures { result ≡ count (λ q. lt_z v (stored_fifths map.now w q))
        (window w h r (record { x = x; y = y })) }
{
    let x0 = x - r;
    let x1 = x + r + 1;
    let y1 = y + r + 1;
    let mut n: u32 = 0;
    for yy in y - r..y1 {
        let a = yy * w + x0;
        let e = yy * w + x1;
        n += count_above(&map[a..e], v);
    }
    if v < map[y * w + x] { n - 1 } else { n }
}
