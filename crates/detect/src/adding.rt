// The corners that the peaks start as, added to a buffer if they fit.
ghost use Rattle.std.specs.Prelude.{◌≡◌, ◌+◌, ◌-◌, ◌*◌, ◌≤◌, true, [], length, pos, nat_lt};
ghost use Rattle.std.specs.Float.Ieee.{of_int};
ghost use Rattle.std.specs.Float.{binary32};
ghost use Rattle.lists.specs.Limits.{largest_side, largest_border};
ghost use Rattle.corner_list.specs.Buffer.{contents, SameSlices};
ghost use Rattle.detect.specs.Internal.{Inside};
ghost use Rattle.detect.specs.Detect.{peaks_in, start_at, starts_in, ties_in, PeaksAdded};
ghost use Rattle.detect.specs.Internal.{place_of, Counted, PeaksListed};

use crate::Peaks;
use crate::searched::SearchedMap;
use crate::searching::{Spot, count_low};
use corner_list::{Corner, CornerBuffer};
use lists::Refusal;

// The number of peaks that the small and the large table hold, and the least number of cells of a map that gets the
// large one. For a smaller map, clearing the large table would take longer than the search.
pub(crate) const FEW: usize = 512;

pub(crate) const MANY: usize = 4096;

pub(crate) const LARGE_MAP: usize = 65536;

// A column or a row as a coordinate.
fn coordinate(n: usize) -> f32
    requires { n ≤ largest_side }
    ensures { result ≡ of_int binary32 (pos n) }
{
    n as f32
}

impl SearchedMap<'_> {
    // The corner that a peak starts as.
    fn start_at(&self, p: Spot) -> Corner
        requires inside { Inside self.now.search.w self.now.search.h self.now.search.border (place_of p) }
        requires counted { Counted self.now.cells.now self.now.search p }
        ensures { result ≡ start_at self.now.cells.now self.now.search (place_of p) }
    {
        Corner {
            x: coordinate(p.x),
            y: coordinate(p.y),
            strength: self.value_at(p.x, p.y),
            neighbours: p.neighbours,
        }
    }

    // How many cells lie inside the border.
    fn cells_inside(&self) -> usize
        ensures { result ≡ (self.now.search.w - 2 * self.now.search.border)
            * (self.now.search.h - 2 * self.now.search.border) }
    {
        let both = 2 * self.search.border;
        self.search.w.saturating_sub(both) * self.search.h.saturating_sub(both)
    }

    // How many cells inside the border are above the threshold or NaN: there are at most as many peaks.
    fn cells_above(&self) -> usize
        ensures { length (peaks_in self.now.cells.now self.now.search) ≤ result }
    {
        let x0 = self.search.border;
        let x1 = self.right();
        if x1 <= x0 {
            return 0;
        }
        let mut n = 0;
        for y in x0..self.bottom() {
            n += x1 - x0 - count_low(self.row(y, x0, x1), self.search.threshold) as usize;
        }
        n
    }

    // Whether at most `free` peaks are known to exist, without searching for them: because no more cells lie inside the
    // border, or no more of these are above the threshold. The cells above the threshold are counted only if all
    // `places` of the table are filled, so that more peaks may follow: counting takes less time than a second search.
    // They are not counted if the n peaks of the table are too many already.
    fn are_sure_to_fit(&self, places: usize, n: usize, free: usize) -> bool
        ensures { result ≡ true → length (peaks_in self.now.cells.now self.now.search) ≤ free }
    {
        if self.cells_inside() <= free {
            return true;
        }
        if n < places || free < n {
            return false;
        }
        self.cells_above() <= free
    }

    // Whether the peaks are too many for a buffer with `places` places, of which `held` are taken. They are counted
    // only if `are_sure_to_fit` does not know.
    fn are_too_many(&self, table: &[u64], n: usize, places: usize, held: usize) -> bool
        requires { PeaksListed self.now.cells.now self.now.search table.now n }
        ensures { result ≡ nat_lt places (held + length (peaks_in self.now.cells.now self.now.search)) }
    {
        if places < held {
            return true;
        }
        let free = places - held;
        if self.are_sure_to_fit(table.len(), n, free) {
            return false;
        }
        let mut x = self.search.border;
        let mut y = self.search.border;
        let mut i = 0;
        while let Some(peak) = self.peak_at(table, n, i, x, y) {
            i += 1;
            if free < i {
                return true;
            }
            x = peak.x + 1;
            y = peak.y;
        }
        false
    }

    // Adds the corners that the peaks start as to a buffer, after the first `held`, and sums their ties. The map is
    // searched once if the table has a place for each peak. Peaks that do not fit the table are searched for again to
    // write them.
    pub(crate) fn add_peaks(
        &self,
        table: &mut [u64],
        list: &mut CornerBuffer<'_>,
        held: usize,
    ) -> Result<Peaks, Refusal>
        ensures same_slices { SameSlices list.old list.new }
        ensures added { PeaksAdded [] (starts_in self.now.cells.now self.now.search)
            (ties_in self.now.cells.now self.now.search) held
            (contents list.old) result (contents list.new) }
    {
        let n = self.list_peaks(table);
        if self.are_too_many(table, n, list.places(), held) {
            return Err(Refusal::ListTooLong);
        }
        let mut x = self.search.border;
        let mut y = self.search.border;
        let mut i = 0;
        let mut ties: u64 = 0;
        while let Some(peak) = self.peak_at(table, n, i, x, y) {
            list.put(held + i, self.start_at(peak));
            ties += u64::from(peak.ties);
            i += 1;
            x = peak.x + 1;
            y = peak.y;
        }
        Ok(Peaks { count: i, ties })
    }
}
