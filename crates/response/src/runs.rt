// Runs of cells of a row of a block. The whole numbers are computed in one loop and the floats in another, so that each
// loop handles as many cells at a time as the machine's vectors hold.
ghost use Rattle.std.specs.Prelude.{◌≡◌, ◌≤◌, length};
ghost use Rattle.lists.specs.Tab.{tab};
ghost use Rattle.ring.specs.Ring.{ring_of};
ghost use Rattle.response.specs.Internal.{SumPlaces, CellsInRow, CellsSummed, response_from, eights_of};
ghost use Rattle.response.specs.Internal.{block_columns};

use crate::cell::{cell_sums, value};
use crate::tile::{BLOCK_COLUMNS, Tile, offsets_in};

// n rounded up to a multiple of 8. Sums are computed for that many cells, to fill the vectors; those past n are not
// used.
pub(crate) fn eights(n: usize) -> usize
    requires { n ≤ block_columns }
    ensures { result ≡ eights_of n }
{
    (n + 7) / 8 * 8
}

// The whole numbers of the responses of a row of a block, each kind in an array of its own, as vectors read them.
#[derive(Drop)]
pub(crate) struct RowSums {
    balance: [u16; BLOCK_COLUMNS],
    sum: [u16; BLOCK_COLUMNS],
    cross: [u16; BLOCK_COLUMNS],
}

// The places for them, all 0.
pub(crate) fn no_sums() -> RowSums
    ensures { SumPlaces result }
{
    RowSums {
        balance: [0; BLOCK_COLUMNS],
        sum: [0; BLOCK_COLUMNS],
        cross: [0; BLOCK_COLUMNS],
    }
}

// The sums of the first n cells in row y of a tile, whose ring lies in the tile. The radius is a parameter of the
// function's type: so the compiler makes a loop for each ring, and knows the offsets of its places.
fn sums<const RADIUS: usize, const ROW: usize, const PLACES: usize>(
    tile: &Tile<ROW, PLACES>,
    y: usize,
    n: usize,
    row: &mut RowSums,
)
    requires { CellsInRow ROW RADIUS y n × SumPlaces row.old }
    ensures { CellsSummed tile.now.places ROW (ring_of RADIUS) RADIUS y n row.new }
{
    let off = offsets_in(RADIUS as u32, ROW);
    for i in 0..n {
        let p = cell_sums(tile, RADIUS, off, RADIUS + i, y);
        row.balance[i] = p.balance;
        row.sum[i] = p.sum;
        row.cross[i] = p.cross;
    }
}

// The same for the ring of that radius.
pub(crate) fn row_sums<const ROW: usize, const PLACES: usize>(
    tile: &Tile<ROW, PLACES>,
    radius: usize,
    y: usize,
    n: usize,
    row: &mut RowSums,
)
    requires { CellsInRow ROW radius y n × SumPlaces row.old }
    ensures { CellsSummed tile.now.places ROW (ring_of radius) radius y n row.new }
{
    if radius == 5 {
        sums::<5, ROW, PLACES>(tile, y, n, row)
    } else {
        sums::<10, ROW, PLACES>(tile, y, n, row)
    }
}

// Writes the responses from the first sums to a row of as many cells.
pub(crate) fn values(row: &RowSums, cells: &mut [f32])
    requires { length cells.old ≤ block_columns }
    ensures { cells.new ≡ tab (length cells.old) (response_from row.now) }
{
    for (i, cell) in cells.iter_mut().enumerate() {
        *cell = value(row.balance[i], row.sum[i], row.cross[i]);
    }
}
