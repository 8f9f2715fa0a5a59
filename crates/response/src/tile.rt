// The pixels of a block of cells and up to 10 more on each side.
ghost use Rattle.std.specs.Prelude.{◌≡◌, ◌+◌, ◌*◌, ◌<◌, ◌≤◌, length, get_or};
ghost use Rattle.lists.specs.Limits.{largest_side, largest_map};
ghost use Rattle.lists.specs.Tab.{tab, pixel};
ghost use Rattle.ring.specs.Ring.{ring_of};
ghost use Rattle.response.specs.Internal.{Bytes, Filled, offset_at, tile_rows, large_row};

// The most columns, and rows, of cells of a block.
pub(crate) const BLOCK_COLUMNS: usize = 192;

pub(crate) const BLOCK_ROWS: usize = 16;

// The most columns, or rows, of a small block.
pub(crate) const SMALL_SIDE: usize = 16;

// How many more columns, and rows, a tile has than its block: the largest ring's radius on either side.
const BEYOND: usize = 20;

// The places of a row of a large tile, and of a small one.
const LARGE_ROW: usize = BLOCK_COLUMNS + BEYOND;

const SMALL_ROW: usize = SMALL_SIDE + BEYOND;

// The rows of a tile.
const TILE_ROWS: usize = BLOCK_ROWS + BEYOND;

// The places of a large tile, and of a small one.
const LARGE_TILE: usize = LARGE_ROW * TILE_ROWS;

const SMALL_TILE: usize = SMALL_ROW * TILE_ROWS;

// The distance in places of a number of rows and columns, in rows of w places.
fn offset(rows: u8, columns: u8, w: usize) -> usize
    requires { w ≤ largest_side }
    ensures { result ≡ rows * w + columns }
{
    usize::from(rows) * w + usize::from(columns)
}

// The offset of each place of the ring from the corner of the ring's square, in rows of w places.
pub(crate) fn offsets_in(ring: u32, w: usize) -> [usize; 16]
    requires { w ≤ largest_side }
    ensures { result ≡ tab 16 (offset_at (ring_of ring) w) }
{
    let t = ring::ring_offsets(ring);
    let mut off = [0usize; 16];
    for k in 0..16 {
        off[k] = offset(t.rows[k], t.columns[k], w);
    }
    off
}

// Copies pixels to as many places.
fn widen_row(pixels: &[u8], places: &mut [u16])
    requires { length places.old ≡ length pixels.now }
    ensures { places.new ≡ pixels.now }
{
    for (i, place) in places.iter_mut().enumerate() {
        *place = u16::from(pixels[i]);
    }
}

// A tile: rows of ROW places, PLACES in all, that hold bytes. Pixels are copied to it once as u16, so that no loop over
// cells has to widen them.
#[derive(Drop)]
pub(crate) struct Tile<const ROW: usize, const PLACES: usize> {
    pub(crate) places: [u16; PLACES],
    ghost all: { PLACES ≡ ROW * tile_rows },
    ghost long: { length places ≡ ROW * tile_rows },
    ghost narrow: { ROW ≤ large_row },
    ghost bytes: { Bytes places },
}

pub(crate) type LargeTile = Tile<LARGE_ROW, LARGE_TILE>;

pub(crate) type SmallTile = Tile<SMALL_ROW, SMALL_TILE>;

impl<const ROW: usize, const PLACES: usize> Tile<ROW, PLACES> {
    // A tile of zeros.
    pub(crate) fn new() -> Self
        requires { (PLACES ≡ ROW * tile_rows) × (ROW ≤ large_row) }
    {
        Tile {
            places: [0; PLACES],
        }
    }

    // Copies the pixels in n columns from column x on and m rows from row y on.
    pub(crate) fn widen(&mut self, img: &[u8], w: usize, x: usize, y: usize, n: usize, m: usize)
        requires { (x + n ≤ w) × ((y + m) * w ≤ length img.now) × (length img.now ≤ largest_map)
            × (y + m ≤ largest_side) × (n ≤ ROW) × (m ≤ tile_rows) }
        ensures { Filled 0 ROW tile_rows (λ i j. pixel img.now w (x + i) (y + j)) 0 n 0 m
            self.old.places self.new.places }
    {
        let places = &mut self.places[..];
        for j in 0..m {
            let from = (y + j) * w + x;
            let at = j * ROW;
            widen_row(&img[from..from + n], &mut places[at..at + n]);
        }
    }
}
