// A table of the first peaks, so that they are searched for only once. Each peak with its counts is encoded as one
// number: a peak in a table of fixed size takes 8 bytes, and a struct of the same fields takes 24.
ghost use Rattle.std.specs.Prelude.{◌≡◌, IfSome};
ghost use Rattle.detect.specs.Internal.{place, spot_of, found_of, SpotInRange, PeaksListed};
ghost use Rattle.detect.specs.Internal.{IsSearchStart, NextListed};

use crate::searched::SearchedMap;
use crate::searching::Spot;

// A count is below this number, which exceeds the number of cells of the largest window.
const COUNTS: usize = 2048;

const WIDE: u64 = COUNTS as u64;

// A row has this many places: the largest side.
const COLUMNS: u64 = lists::LARGEST_SIDE as u64;

// The number behind those of all peaks: no peak is left.
const NONE: u64 = COLUMNS * COLUMNS * WIDE * WIDE;

// The peak that a number in a table encodes.
fn found_of(a: u64) -> Option<Spot>
    ensures { result ≡ found_of a }
{
    if a >= NONE {
        return None;
    }
    let b = a / WIDE;
    let at = b / WIDE;
    Some(Spot {
        x: (at % COLUMNS) as usize,
        y: (at / COLUMNS) as usize,
        neighbours: (b % WIDE) as u32,
        ties: (a % WIDE) as u32,
    })
}

// The number that encodes what a search found.
fn number_of(found: Option<Spot>) -> u64
    requires { IfSome found SpotInRange }
    ensures { found_of result ≡ found }
{
    match found {
        Some(p) => {
            (((p.y * lists::LARGEST_SIDE + p.x) * COUNTS) as u64 + p.neighbours as u64) * WIDE
                + p.ties as u64
        }
        None => NONE,
    }
}

impl SearchedMap<'_> {
    // Lists the first peaks in a table, as many as it has places for. After the last peak of the map comes the number
    // that says so. Returns how many places of the table are filled.
    pub(crate) fn list_peaks(&self, table: &mut [u64]) -> usize
        ensures { PeaksListed self.now.cells.now self.now.search table.new result }
    {
        let mut x = self.search.border;
        let mut y = self.search.border;
        for n in 0..table.len() {
            let found = self.next_peak(x, y);
            table[n] = number_of(found);
            let Some(peak) = found else {
                return n + 1;
            };
            x = peak.x + 1;
            y = peak.y;
        }
        table.len()
    }

    // The first peak from (x, y) on: taken from place i of the table if that is one of the n listed, otherwise searched
    // for.
    pub(crate) fn peak_at(
        &self,
        table: &[u64],
        n: usize,
        i: usize,
        x: usize,
        y: usize,
    ) -> Option<Spot>
        requires peaks_listed { PeaksListed self.now.cells.now self.now.search table.now n }
        requires search_start { IsSearchStart self.now.search table.now n i (place x y) }
        ensures { NextListed self.now.cells.now self.now.search table.now n i (place x y) result }
    {
        if i < n {
            return found_of(table[i]);
        }
        self.next_peak(x, y)
    }
}
