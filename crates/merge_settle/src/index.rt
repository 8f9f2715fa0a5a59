// An index of the kept corners by their cells: a table of slots, each empty or holding a place of the buffer. A
// corner's place is listed at its home slot or after it, with no empty slot between. Other places may be listed there
// too: those of corners that happen to have the same home, or that were replaced since. So a search tests the corner
// that is at the place now. If the table is full, or a run of used slots reaches its end, a search looks at every kept
// corner. Slots are floats, so that a buffer of floats can be the table: a slot holds a number as its 32 bits. Lists
// usually come row by row, so in a long one only the last rows are near the corners to come: from time to time the
// index is rebuilt from the corners that are not above row `floor`.
// Table, grid and row are no struct: what is indexed lies in a buffer beside it, which changes, so every contract would
// name that buffer still, and each method that changes the table would also promise grid, row and slice as they were.
ghost use Rattle.std.specs.Prelude.{◌≡◌, ◌⊎◌, ◌+◌, ◌<◌, ◌≤◌, length, leb, IfSome, unwrap_or};
ghost use Rattle.merge_grid.specs.Grid.{row_of};
ghost use Rattle.merge_settle.specs.Internal.{pair_of, home_of, home_at, slots_of, SlotFor, ListsAt, Indexed};

use merge_grid::{Grid, Position};

// What an empty slot holds: the bits of 1.0. What a slot holds becomes a place by `as`: std has no `From` of a u32 for
// a usize.
pub(crate) const EMPTY: u32 = 0x3f80_0000;

pub(crate) const EMPTY_SLOT: f32 = 1.0;

// The home slot, in a table of `slots` slots, of the cells in pair x across and pair y down.
pub(crate) fn home_of(slots: usize, x: usize, y: usize) -> usize
    requires { 0 < slots }
    ensures { result ≡ home_of slots x y }
{
    let m = (x % 65536 * 40503 + y % 65536 * 51749) % 4294967296;
    m * m / 262144 % slots
}

// The pair that a cell number is in.
fn pair_of(n: usize) -> usize
    ensures { result ≡ pair_of n }
{
    n / 2 + n % 2
}

// The home slot of a corner, by its position.
fn home_at(g: Grid, slots: usize, p: Position) -> usize
    requires { 0 < slots }
    ensures { result ≡ home_at g slots p }
{
    let x = pair_of(merge_grid::column_of(g, p));
    let y = pair_of(merge_grid::row_of(g, p));
    home_of(slots, x, y)
}

// The slot in which to list a place.
fn slot_for(table: &[f32], home: usize, place: usize) -> Option<usize>
    requires { home ≤ length table.now }
    ensures slot { SlotFor (slots_of table.now) home place (unwrap_or result (length table.now)) }
    ensures inside { IfSome result (λ p. p < length table.now) }
{
    (home..table.len()).find(|p| {
        let i = float32::to_bits(table[*p]);
        i == EMPTY || i as usize == place
    })
}

// Lists the place of a corner that is at p, if it is one that a slot can hold.
pub(crate) fn list_place(table: &mut [f32], g: Grid, place: usize, p: Position)
    requires { 0 < length table.old }
    ensures { ListsAt g p place (slots_of table.old) (slots_of table.new) }
{
    if place < EMPTY as usize {
        let home = home_at(g, table.len(), p);
        if let Some(slot) = slot_for(table, home, place) {
            table[slot] = float32::from_bits(place as u32);
        }
    }
}

// Whether `row` is at or below `floor`, or just above it.
fn reaches(floor: usize, row: usize) -> bool
    ensures { result ≡ leb floor (row + 1) }
{
    floor.saturating_sub(row) <= 1
}

// Lists the place of a corner that is at p, if it reaches `floor`.
fn list_near(table: &mut [f32], g: Grid, floor: usize, place: usize, p: Position)
    requires { 0 < length table.old }
    ensures { ((row_of g p + 1 < floor) × (slots_of table.new ≡ slots_of table.old))
        ⊎ ListsAt g p place (slots_of table.old) (slots_of table.new) }
{
    if reaches(floor, merge_grid::row_of(g, p)) {
        list_place(table, g, place, p);
    }
}

// Lists the first k corners of a buffer, except those that do not reach `floor`.
pub(crate) fn list_kept(xs: &[f32], ys: &[f32], table: &mut [f32], g: Grid, floor: usize, k: usize)
    requires { 0 < length table.old }
    ensures { Indexed g floor (slots_of table.new) xs.now ys.now k }
{
    // By the place, which is what the index lists.
    for i in 0..k {
        list_near(table, g, floor, i, merge_grid::position_at(xs, ys, i));
    }
}

// The lowest row of the corners from place `from` up to n.
fn lowest_row(xs: &[f32], ys: &[f32], g: Grid, from: usize, n: usize) -> usize {
    let rows = (from..n).map(|i| merge_grid::row_of(g, merge_grid::position_at(xs, ys, i)));
    rows.min().unwrap_or(usize::MAX)
}

// The row `low`; but at every 65,536th corner of a list of n, the lowest row of the corners from there on. A table with
// `slots` slots does not use it before half as many corners.
pub(crate) fn floor_at(
    xs: &[f32],
    ys: &[f32],
    slots: usize,
    g: Grid,
    low: usize,
    i: usize,
    n: usize,
) -> usize {
    if slots / 2 <= i && i % 65536 == 0 {
        lowest_row(xs, ys, g, i, n)
    } else {
        low
    }
}

// Rebuilds the index of the first k corners if it is time, so that it does not fill with outdated places: once for
// every half as many corners of the list as the table has slots. Returns the row from which the index holds: `low` if
// it was rebuilt, otherwise `floor`.
pub(crate) fn refresh(
    xs: &[f32],
    ys: &[f32],
    table: &mut [f32],
    g: Grid,
    floor: usize,
    low: usize,
    k: usize,
    i: usize,
) -> usize
    requires { Indexed g floor (slots_of table.old) xs.now ys.now k }
    ensures { Indexed g result (slots_of table.new) xs.now ys.now k }
{
    let half = table.len() / 2;
    if i % (half + 1) != half {
        return floor;
    }
    table.fill(EMPTY_SLOT);
    list_kept(xs, ys, table, g, low, k);
    low
}
