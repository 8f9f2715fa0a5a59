// The two rings of sixteen sampling places around a centre.
#![tactic(auto)]

ghost use Rattle.std.specs.Prelude.{◌≡◌};
ghost use Rattle.ring.specs.Ring.{ring_of, is_ring};
ghost use Rattle.ring.specs.Offsets.{offsets_of};

// A ring's radius, and the columns and rows of its places in order, clockwise from the top. Both are counted from the
// corner of the ring's square, so that none is negative: the place that lies dx columns to the right of the centre and
// dy rows below it has column dx + radius and row dy + radius.
#[derive(Clone, Copy)]
pub struct RingOffsets {
    pub radius: u32,
    pub columns: [u8; 16],
    pub rows: [u8; 16],
}

const COLUMNS_5: [u8; 16] = [5, 7, 8, 10, 10, 10, 8, 7, 5, 3, 2, 0, 0, 0, 2, 3];

const ROWS_5: [u8; 16] = [0, 0, 2, 3, 5, 7, 8, 10, 10, 10, 8, 7, 5, 3, 2, 0];

const COLUMNS_10: [u8; 16] = [10, 14, 16, 20, 20, 20, 16, 14, 10, 6, 4, 0, 0, 0, 4, 6];

const ROWS_10: [u8; 16] = [0, 0, 4, 6, 10, 14, 16, 20, 20, 20, 16, 14, 10, 6, 4, 0];

// The ring that a radius selects: 10 the second, and every other number the first.
pub fn ring_offsets(radius: u32) -> RingOffsets
    ensures { result ≡ offsets_of (ring_of radius) }
{
    match radius {
        10 => RingOffsets {
            radius: 10,
            columns: COLUMNS_10,
            rows: ROWS_10,
        },
        _ => RingOffsets {
            radius: 5,
            columns: COLUMNS_5,
            rows: ROWS_5,
        },
    }
}

// Whether a parameter set may have this radius: 5 or 10.
pub fn is_ring(radius: u32) -> bool
    ensures { result ≡ is_ring radius }
{
    matches!(radius, 5 | 10)
}
