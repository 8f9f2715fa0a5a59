// The tests of a cell by its window, as in neighbors.rs: whether a cell of the window is larger, how many are above 0,
// and how many equal it.
ghost use Rattle.std.specs.Prelude.{◌≡◌, ◌+◌, ◌*◌, ◌<◌, ◌≤◌, true, false, not, ◌&&◌, length, if◌then◌else◌, None, Some};
ghost use Rattle.std.specs.Float.{binary32};
ghost use Rattle.std.specs.Float.Ieee.{add, lt};
ghost use Rattle.lists.specs.Places.{any, count};
ghost use Rattle.float32.specs.Float32.{zero};
ghost use Rattle.detect.specs.Peaks.{value_at, slack};
ghost use Rattle.detect.specs.Detect.{neighbours_at, test_at, WindowTested};
ghost use Rattle.detect.specs.Internal.{Inside, place, largest_row, is_counted, counted_at, beaten_at, peak_test};
ghost use Rattle.detect.specs.Internal.{Beside, OfFive, OfSquare};

use crate::searched::SearchedMap;
use crate::searching::Spot;

// What is counted in a window: the cells above 0, those with at least the centre's value, or those that equal it. An
// enum and no closure: a promise names what was counted, and a closure would bring its own promise into each of them.
#[derive(Clone, Copy)]
pub(crate) enum Asked {
    Positive,
    AtLeast,
    Equal,
}

// The bar, which a cell must exceed to beat a cell of value v: v itself, or 1/256 more for the choice by exact values
// (RULES 34.2).
pub(crate) fn bar_of(v: f32, exact: bool) -> f32
    ensures { result ≡ (if exact then add binary32 v slack else v) }
{
    if exact { v + 0.00390625 } else { v }
}

// Whether u exceeds both v and the bar.
pub(crate) fn is_larger(u: f32, v: f32, bar: f32) -> bool
    ensures { result ≡ (lt v u && lt bar u) }
{
    v < u && bar < u
}

// Whether one of the cells exceeds both.
fn any_larger(cells: &[f32], v: f32, bar: f32) -> bool
    ensures { result ≡ any (λ u. lt v u && lt bar u) cells.now }
{
    cells.iter().any(|u| is_larger(*u, v, bar))
}

// Whether a cell of value u is counted if the centre's value is v.
fn is_counted(asked: Asked, v: f32, u: f32) -> bool
    ensures { result ≡ is_counted asked v u }
{
    match asked {
        Asked::Positive => 0.0 < u,
        Asked::AtLeast => v <= u,
        Asked::Equal => v == u,
    }
}

// How many of the cells are counted. `filter` and `count` took up to twice the time in noise: their count is a `usize`,
// and is made by branches.
fn count_cells(cells: &[f32], asked: Asked, v: f32) -> u32
    requires { length cells.now ≤ largest_row }
    ensures { result ≡ count (is_counted asked v) cells.now }
{
    let mut n: u32 = 0;
    for u in cells {
        if is_counted(asked, v, *u) {
            n += 1;
        }
    }
    n
}

// The greater of two values; a if one of them is NaN.
fn greater_of(a: f32, b: f32) -> f32
    ensures { result ≡ (if lt a b then b else a) }
{
    if a < b { b } else { a }
}

// The greatest of the four cells beside cell i, in a map of width w: above, below, left and right of it. There is no
// early exit, so that no branch has to be predicted. If one is NaN it may be another of them.
pub(crate) fn most_beside(map: &[f32], w: usize, i: usize) -> f32
    requires le_w { (1 ≤ w) × (w ≤ i) }
    requires w_in_bounds { i + w < length map.now }
    ensures { Beside map.now w i result }
{
    let p = greater_of(map[i - w], map[i + w]);
    let q = greater_of(map[i - 1], map[i + 1]);
    greater_of(p, q)
}

// The greatest of the five cells from place a of a map on; if one is NaN it may be another of them.
fn most_of_five(map: &[f32], a: usize) -> f32
    requires { a + 5 ≤ length map.now }
    ensures { OfFive map.now a result }
{
    let p = greater_of(map[a], map[a + 1]);
    let q = greater_of(map[a + 3], map[a + 4]);
    greater_of(greater_of(p, q), map[a + 2])
}

// The same for the square of five by five cells whose first is at place a, in a map of width w.
fn most_of_square(map: &[f32], w: usize, a: usize) -> f32
    requires { a + 4 * w + 5 ≤ length map.now }
    ensures { OfSquare map.now w a result }
{
    let p = greater_of(most_of_five(map, a), most_of_five(map, a + w));
    let q = greater_of(most_of_five(map, a + 3 * w), most_of_five(map, a + 4 * w));
    greater_of(greater_of(p, q), most_of_five(map, a + 2 * w))
}

// A cell inside the border of a map that is searched, with its value.
#[derive(Clone, Copy)]
pub(crate) struct Cell<'a> {
    pub(crate) map: SearchedMap<'a>,
    x: usize,
    y: usize,
    pub(crate) value: f32,
    ghost inside: { Inside map.search.w map.search.h map.search.border (place x y) },
    ghost read: { value ≡ value_at map.cells.now map.search.w (place x y) },
}

impl<'a> SearchedMap<'a> {
    // The cell in column x of row y.
    pub(crate) fn cell(&self, x: usize, y: usize) -> Cell<'a>
        requires { Inside self.now.search.w self.now.search.h self.now.search.border (place x y) }
        ensures map { result.map ≡ self.now }
        ensures x { result.x ≡ x }
        ensures y { result.y ≡ y }
    {
        Cell {
            map: *self,
            x,
            y,
            value: self.value_at(x, y),
        }
    }
}

impl Cell<'_> {
    // Whether no cell of the window beats this one, by computed or by exact values. Inside the border the window needs
    // no clipping. The cell is compared with itself too, which does no harm: it does not beat itself.
    fn is_local_max(&self, exact: bool) -> bool
        ensures { result
            ≡ not (beaten_at exact self.now.map.cells.now self.now.map.search (place self.now.x self.now.y)) }
    {
        let bar = bar_of(self.value, exact);
        let r = self.map.search.window;
        for row in self.y - r..self.y + r + 1 {
            if any_larger(
                self.map.row(row, self.x - r, self.x + r + 1),
                self.value,
                bar,
            ) {
                return false;
            }
        }
        true
    }

    // How many cells are counted in the square around this one, itself included. The radius of the square is that of
    // the window: a compiler makes code without inner loops for each r that is given as a number.
    fn count_square(&self, r: usize, asked: Asked) -> u32
        requires { r ≡ self.now.map.search.window }
        ensures { result
            ≡ counted_at self.now.map.cells.now self.now.map.search (place self.now.x self.now.y) asked self.now.value
            + (if is_counted asked self.now.value self.now.value then 1 else 0) }
    {
        let mut n: u32 = 0;
        for row in self.y - r..self.y + r + 1 {
            n += count_cells(
                self.map.row(row, self.x - r, self.x + r + 1),
                asked,
                self.value,
            );
        }
        n
    }

    // How many cells are counted in the window: those of the square without the centre.
    fn count_neighbors(&self, asked: Asked) -> u32
        ensures { result ≡ counted_at self.now.map.cells.now self.now.map.search (place self.now.x self.now.y) asked
            self.now.value }
    {
        let v = self.value;
        let n = self.count_square(self.map.search.window, asked);
        if is_counted(asked, v, v) { n - 1 } else { n }
    }

    // A fast path: true if one of the four cells beside this one beats it. In a photograph most beaten cells are beaten
    // by one of these. False for a window of radius 0, which has no cells.
    pub(crate) fn is_overtopped(&self) -> bool
        ensures { result ≡ true → beaten_at self.now.map.search.exact self.now.map.cells.now self.now.map.search
            (place self.now.x self.now.y) ≡ true }
    {
        let s = self.map.search;
        if s.window < 1 {
            return false;
        }
        let i = self.y * s.w + self.x;
        is_larger(
            most_beside(self.map.cells, s.w, i),
            self.value,
            bar_of(self.value, s.exact),
        )
    }

    // A fast path: true if the window, whose radius is r, has fewer positive cells than a peak needs.
    fn are_few(&self, r: usize) -> bool
        requires positive { lt zero self.now.value ≡ true }
        requires radius { r ≡ self.now.map.search.window }
        ensures { result ≡ true
            → neighbours_at self.now.map.cells.now self.now.map.search (place self.now.x self.now.y)
            < self.now.map.search.least_neighbours }
    {
        self.count_square(r, Asked::Positive) <= self.map.search.least_neighbours
    }

    // The same for windows of radius 2, the usual ones, and smaller ones. Otherwise false.
    fn has_few(&self) -> bool
        ensures { result ≡ true
            → neighbours_at self.now.map.cells.now self.now.map.search (place self.now.x self.now.y)
            < self.now.map.search.least_neighbours }
    {
        if !(0.0 < self.value) {
            return false;
        }
        match self.map.search.window {
            2 => self.are_few(2),
            1 => self.are_few(1),
            0 => self.are_few(0),
            _ => false,
        }
    }

    // A fast path like `has_few`: true if no other cell of the window is at least this one. Then none is larger and
    // none equals it.
    fn is_alone(&self) -> bool
        ensures { result ≡ true → WindowTested self.now.map.cells.now self.now.map.search
            (place self.now.x self.now.y) (Some 0) }
    {
        if self.map.search.window != 2 || !(self.value <= self.value) {
            return false;
        }
        self.count_square(2, Asked::AtLeast) == 1
    }

    // A fast path: true if a cell of the window is larger than this one. Only for windows of radius 2. The greatest of
    // its cells is found without a branch, in a quarter of the time of a count.
    fn is_topped(&self) -> bool
        ensures { result ≡ true → WindowTested self.now.map.cells.now self.now.map.search
            (place self.now.x self.now.y) None }
    {
        if self.map.search.window != 2 {
            return false;
        }
        let w = self.map.search.w;
        self.value < most_of_square(self.map.cells, w, (self.y - 2) * w + (self.x - 2))
    }

    // The window test, by computed values: None if the cell is beaten, and otherwise the number of its ties.
    fn window_test(&self) -> Option<u32>
        ensures { WindowTested self.now.map.cells.now self.now.map.search (place self.now.x self.now.y) result }
    {
        if self.is_topped() {
            return None;
        }
        if self.is_alone() {
            return Some(0);
        }
        if self.is_local_max(false) {
            return Some(self.count_neighbors(Asked::Equal));
        }
        None
    }

    // Whether the cell, whose window test is t, is beaten. By exact values some cells are not beaten that the test,
    // which goes by computed values, calls beaten.
    fn is_beaten(&self, t: Option<u32>) -> bool
        requires { t ≡ test_at self.now.map.cells.now self.now.map.search (place self.now.x self.now.y) }
        ensures { result ≡ beaten_at self.now.map.search.exact self.now.map.cells.now self.now.map.search
            (place self.now.x self.now.y) }
    {
        if t.is_some() {
            return false;
        }
        if self.map.search.exact {
            return !self.is_local_max(true);
        }
        true
    }

    // The peak at this cell, if it is one, with its positive neighbours and ties: they are counted while its window is
    // in the cache. The test that drops most cells in noise comes first, to save time: too few positive neighbours. A
    // cell that is overtopped was skipped.
    pub(crate) fn peak_test(&self) -> Option<Spot>
        ensures { result ≡ peak_test self.now.map.cells.now self.now.map.search (place self.now.x self.now.y) }
    {
        if self.value <= self.map.search.threshold || self.has_few() {
            return None;
        }
        let t = self.window_test();
        if self.is_beaten(t) {
            return None;
        }
        let neighbours = self.count_neighbors(Asked::Positive);
        if neighbours < self.map.search.least_neighbours {
            return None;
        }
        Some(Spot {
            x: self.x,
            y: self.y,
            neighbours,
            ties: t.unwrap_or(0),
        })
    }
}
