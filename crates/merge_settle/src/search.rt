// The first of the kept corners that a corner joins.
ghost use Rattle.std.specs.Prelude.{◌≡◌, ◌⊎◌, true, cond, ◌&&◌, ◌+◌, ◌^◌, ◌<◌, ◌≤◌, length, ltb};
ghost use Rattle.merge_settle.specs.Internal.{joins_at, FirstPasses, IsFirstAmong, empty, slots_of};
ghost use Rattle.merge_settle.specs.Internal.{PlaceListed, ListedAt, Indexed};

use merge_grid::{Grid, Position};

// The lowest of the first k places of a buffer whose corner a corner at p joins. Looks at each place.
fn first_joined(xs: &[f32], ys: &[f32], g: Grid, k: usize, p: Position) -> Option<usize>
    ensures { FirstPasses (joins_at g p xs.now ys.now) k result }
{
    (0..k).find(|i| merge_grid::is_joined(g, p, merge_grid::position_at(xs, ys, *i)))
}

// Place i if it is below `low` and a corner at p joins its corner, otherwise `low`.
fn lower_of(xs: &[f32], ys: &[f32], g: Grid, i: usize, low: usize, p: Position) -> usize
    ensures { result ≡ cond (ltb i low && joins_at g p xs.now ys.now i) i low }
{
    if i < low && merge_grid::is_joined(g, p, merge_grid::position_at(xs, ys, i)) {
        i
    } else {
        low
    }
}

// The lowest place below `most`, among those listed from `home` on, whose corner a corner at p joins; or `most`.
fn lowest_from(
    xs: &[f32],
    ys: &[f32],
    table: &[f32],
    g: Grid,
    home: usize,
    most: usize,
    p: Position,
) -> usize
    requires { (home ≤ length table.now) × (most ≤ empty) }
    ensures { IsFirstAmong (joins_at g p xs.now ys.now)
        (PlaceListed (slots_of table.now) home) most result }
{
    let mut low = most;
    for slot in &table[home..] {
        let i = float32::to_bits(*slot);
        if i == crate::index::EMPTY {
            return low;
        }
        low = lower_of(xs, ys, g, i as usize, low, p);
    }
    first_joined(xs, ys, g, low, p).unwrap_or(low)
}

// The same for those listed from the homes of two adjacent pairs on, x and x + 1 across.
fn lowest_of_two(
    xs: &[f32],
    ys: &[f32],
    table: &[f32],
    g: Grid,
    x: usize,
    y: usize,
    most: usize,
    p: Position,
) -> usize
    requires { (0 < length table.now) × (most ≤ empty) × (x + 1 < 2 ^ 64) }
    ensures { IsFirstAmong (joins_at g p xs.now ys.now)
        (λ i. ListedAt (slots_of table.now) x y i
        ⊎ ListedAt (slots_of table.now) (x + 1) y i) most result }
{
    let slots = table.len();
    let home = crate::index::home_of(slots, x, y);
    let low = lowest_from(xs, ys, table, g, home, most, p);
    let home = crate::index::home_of(slots, x + 1, y);
    lowest_from(xs, ys, table, g, home, low, p)
}

// Whether the index can be used for corners in a row and for the first k places.
fn index_holds(floor: usize, row: usize, k: usize) -> bool
    ensures { result ≡ true → (floor ≤ row) × (k ≤ empty) }
{
    floor <= row && k <= crate::index::EMPTY as usize
}

// The lowest of the first k places of a buffer whose corner a corner at p joins. Looks at those that the index lists
// near p.
pub(crate) fn find_joined(
    xs: &[f32],
    ys: &[f32],
    table: &[f32],
    g: Grid,
    floor: usize,
    k: usize,
    p: Position,
) -> Option<usize>
    requires { Indexed g floor (slots_of table.now) xs.now ys.now k }
    ensures { FirstPasses (joins_at g p xs.now ys.now) k result }
{
    let row = merge_grid::row_of(g, p);
    if !index_holds(floor, row, k) {
        return first_joined(xs, ys, g, k, p);
    }
    let x = merge_grid::column_of(g, p) / 2;
    let y = row / 2;
    let low = lowest_of_two(xs, ys, table, g, x, y, k, p);
    let low = lowest_of_two(xs, ys, table, g, x, y + 1, low, p);
    if low < k { Some(low) } else { None }
}
