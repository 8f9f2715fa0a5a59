// The search for the next peak, in row order. Cells at or below the threshold are skipped, and those beside a larger
// cell, several at a time.
ghost use Rattle.std.specs.Prelude.{◌≡◌, ◌+◌, ◌-◌, ◌<◌, ◌≤◌, true, false, ◌&&◌, ◌||◌, length, if◌then◌else◌, nat_lt};
ghost use Rattle.std.specs.Float.Ieee.{lt};
ghost use Rattle.lists.specs.Limits.{largest_side};
ghost use Rattle.lists.specs.Places.{count};
ghost use Rattle.detect.specs.Peaks.{value_at, is_low};
ghost use Rattle.detect.specs.Detect.{peak_in};
ghost use Rattle.detect.specs.Internal.{Inside, place, Below, LowRow, LowRows};
ghost use Rattle.detect.specs.Internal.{Rival, RunInMap, RunPassed, PlacesSkipped, NextFound};

use crate::neighbors::{Cell, bar_of, is_larger, most_beside};
use crate::searched::SearchedMap;

// How many cells are compared at a time: as many as pay, on boards and in noise (docs/changes/peaks.md).
const RUN: usize = 16;

// The mark behind those of a run, each of which is a binary digit.
const BEHIND_RUN: u32 = 65536;

// From this width on it pays to test a whole row first.
const WIDE_MAP: usize = 2048;

// A peak that a search found: column x of row y, and how many positive neighbours and ties it has.
#[derive(Clone, Copy)]
pub(crate) struct Spot {
    pub(crate) x: usize,
    pub(crate) y: usize,
    pub(crate) neighbours: u32,
    pub(crate) ties: u32,
}

// How many of the cells are at or below t. The loop has no early exit, so that a compiler can compare several cells at
// a time.
pub(crate) fn count_low(cells: &[f32], t: f32) -> u32
    requires { length cells.now ≤ largest_side }
    ensures { result ≡ count (is_low t) cells.now }
{
    let mut n: u32 = 0;
    for cell in cells {
        if *cell <= t {
            n += 1;
        }
    }
    n
}

// How many cells at the start are at or below t, counted in whole runs.
fn blocks_below(cells: &[f32], t: f32) -> usize
    ensures { Below cells.now t result }
{
    let mut i = 0;
    // A scan that jumps by runs: the runs that `chunks_exact` and `take_while` leave would be counted into cells again.
    while RUN <= cells.len() - i {
        let e = i + RUN;
        if count_low(&cells[i..e], t) as usize != RUN {
            return i;
        }
        i = e;
    }
    i
}

// The mark of a cell of value v: 0 if it is at or below t or u exceeds both it and the bar, otherwise `mark`.
fn mark_of(v: f32, t: f32, u: f32, bar: f32, mark: u32) -> u32
    ensures { result ≡ (if is_low t v || (lt v u && lt bar u) then 0 else mark) }
{
    if v <= t {
        return 0;
    }
    if is_larger(u, v, bar) { 0 } else { mark }
}

// What cell i is compared with: the greatest of the four cells beside it or, if a window has no cells, the cell itself.
fn rival(map: &[f32], w: usize, i: usize, beside: bool) -> f32
    requires i_in_bounds { i < length map.now }
    requires le_w { beside ≡ true → (1 ≤ w) × (w ≤ i) × (i + w < length map.now) }
    ensures { Rival map.now w i beside result }
{
    if beside {
        return most_beside(map, w, i);
    }
    map[i]
}

// How many cells of the run from place `at` of the map on come before the first that may be a peak: one that is neither
// at or below t nor beaten by its rival. Such a cell sets a digit of a number, whose lowest digit is that of the first.
// The loop has no early exit, so that a compiler can compare several cells at a time and no branch has to be predicted.
fn cells_passed(map: &[f32], w: usize, at: usize, t: f32, beside: bool, exact: bool) -> usize
    requires { RunInMap map.now w at beside }
    ensures { RunPassed map.now w t beside exact at result }
{
    let mut marks: u32 = 0;
    for i in 0..RUN as u32 {
        let k = at + i as usize;
        let u = rival(map, w, k, beside);
        let v = map[k];
        marks += mark_of(v, t, u, bar_of(v, exact), 1u32 << i);
    }
    u32::trailing_zeros(marks + BEHIND_RUN) as usize
}

impl Cell<'_> {
    // Whether the cell may be a peak: it is neither at or below the threshold nor overtopped.
    fn may_be_peak(&self) -> bool
        ensures { result ≡ false
            → peak_in self.now.map.cells.now self.now.map.search (place self.now.x self.now.y) ≡ false }
    {
        if self.value <= self.map.search.threshold {
            return false;
        }
        !self.is_overtopped()
    }
}

impl SearchedMap<'_> {
    // The value of the cell (x, y).
    pub(crate) fn value_at(&self, x: usize, y: usize) -> f32
        requires { Inside self.now.search.w self.now.search.h self.now.search.border (place x y) }
        ensures { result ≡ value_at self.now.cells.now self.now.search.w (place x y) }
    {
        self.cells[y * self.search.w + x]
    }

    // The same with what the search says. Both choices are written out, so that the compiler makes a loop for each.
    fn run_passed(&self, at: usize) -> usize
        requires { RunInMap self.now.cells.now self.now.search.w at (nat_lt 0 self.now.search.window) }
        ensures { RunPassed self.now.cells.now self.now.search.w self.now.search.threshold
            (nat_lt 0 self.now.search.window) self.now.search.exact at result }
    {
        let s = self.search;
        if s.window == 0 {
            return cells_passed(self.cells, s.w, at, s.threshold, false, s.exact);
        }
        if s.exact {
            return cells_passed(self.cells, s.w, at, s.threshold, true, true);
        }
        cells_passed(self.cells, s.w, at, s.threshold, true, false)
    }

    // True if the cells of row y inside the border are known to be at or below the threshold. Only rows of wide maps
    // are tested, where it pays, and only rows that windows reach. A row is tested when it becomes the last row of a
    // window, so that later windows find it in the cache.
    fn is_low_row(&self, y: usize) -> bool
        ensures { result ≡ true → LowRow self.now.cells.now self.now.search y }
    {
        let s = self.search;
        if s.w < WIDE_MAP || (s.h + s.window).saturating_sub(s.border) <= y {
            return false;
        }
        let x1 = s.w - s.border;
        (x1 - s.border) as u32 <= count_low(self.row(y, s.border, x1), s.threshold)
    }

    // The first column from x on whose cell in row y may be a peak, or one before which all are skipped and behind
    // which no whole run is left.
    fn skip_runs(&self, x: usize, y: usize) -> usize
        requires in_rows { (self.now.search.border ≤ y) × (y < self.now.search.h - self.now.search.border) }
        requires in_columns { (self.now.search.border ≤ x) × (x ≤ self.now.search.w - self.now.search.border) }
        ensures { PlacesSkipped self.now.cells.now self.now.search (place x y) (place result y)
            × (result ≤ self.now.search.w - self.now.search.border) }
    {
        let x1 = self.right();
        let mut x = x;
        // A scan that jumps: a `for` would have to name the columns that it passes over.
        while RUN <= x1 - x {
            x += blocks_below(self.row(y, x, x1), self.search.threshold);
            if x1 - x < RUN {
                return x;
            }
            let n = self.run_passed(y * self.search.w + x);
            if n < RUN {
                return x + n;
            }
            x += RUN;
        }
        x
    }

    // The same, cell by cell.
    fn skip_cells(&self, x: usize, y: usize) -> usize
        requires in_rows { (self.now.search.border ≤ y) × (y < self.now.search.h - self.now.search.border) }
        requires in_columns { (self.now.search.border ≤ x) × (x ≤ self.now.search.w - self.now.search.border) }
        ensures { PlacesSkipped self.now.cells.now self.now.search (place x y) (place result y) }
    {
        let x1 = self.right();
        for column in x..x1 {
            if self.cell(column, y).may_be_peak() {
                return column;
            }
        }
        x1
    }

    // The first column from x on whose cell in row y may be a peak, up to the border: cells are skipped that are at or
    // below the threshold or overtopped. Around a corner nearly all cells above the threshold are. The rows from `low`
    // up to y at least have only cells at or below it.
    fn skip(&self, x: usize, y: usize, low: usize) -> usize
        requires in_rows { (self.now.search.border ≤ y) × (y < self.now.search.h - self.now.search.border) }
        requires in_columns { self.now.search.border ≤ x }
        requires low_rows { LowRows self.now.cells.now self.now.search low y }
        ensures { PlacesSkipped self.now.cells.now self.now.search (place x y) (place result y) }
    {
        let x1 = self.right();
        if x1 <= x {
            return x;
        }
        if low <= y {
            return x1;
        }
        let r = self.skip_runs(x, y);
        if RUN <= x1 - r {
            return r;
        }
        self.skip_cells(r, y)
    }

    // The first peak from (x, y) on, in row order.
    pub(crate) fn next_peak(&self, x: usize, y: usize) -> Option<Spot>
        requires { (self.now.search.border ≤ x) × (self.now.search.border ≤ y) }
        ensures { NextFound self.now.cells.now self.now.search (place x y) result }
    {
        let x1 = self.right();
        let y1 = self.bottom();
        if y1 <= y {
            return None;
        }
        let r = self.search.window;
        let mut x = x;
        let mut y = y;
        let mut low = y + r + 1;
        // The search goes on in the same row or in the next: a `for` over the rows would need a loop in it.
        while y < y1 {
            x = self.skip(x, y, low);
            if x < x1 {
                if let Some(peak) = self.cell(x, y).peak_test() {
                    return Some(peak);
                }
                x += 1;
            } else {
                x = self.search.border;
                y += 1;
                if !self.is_low_row(y + r) {
                    low = y + r + 1;
                }
            }
        }
        None
    }
}
