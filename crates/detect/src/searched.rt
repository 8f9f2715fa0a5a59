// A map with what it is searched with: what holds of the two together stands here once.
ghost use Rattle.std.specs.Prelude.{◌≡◌, ◌+◌, ◌-◌, ◌*◌, ◌<◌, ◌≤◌, take, drop};
ghost use Rattle.detect.specs.Internal.{Searchable};

use crate::Search;

// A map that can be searched, and what with.
#[derive(Clone, Copy)]
pub(crate) struct SearchedMap<'a> {
    pub(crate) cells: &'a [f32],
    pub(crate) search: Search,
    ghost searchable: { Searchable cells.now search },
}

impl<'a> SearchedMap<'a> {
    // The column behind the last one inside the border.
    pub(crate) fn right(&self) -> usize
        ensures { result ≡ self.now.search.w - self.now.search.border }
    {
        self.search.w.saturating_sub(self.search.border)
    }

    // The row behind the last one inside the border.
    pub(crate) fn bottom(&self) -> usize
        ensures { result ≡ self.now.search.h - self.now.search.border }
    {
        self.search.h.saturating_sub(self.search.border)
    }

    // The cells of row y from column `left` up to, not including, column `right`.
    pub(crate) fn row(&self, y: usize, left: usize, right: usize) -> &'a [f32]
        requires in_rows { y < self.now.search.h }
        requires in_order { left ≤ right }
        requires in_columns { right ≤ self.now.search.w }
        ensures { result.now
            ≡ take (y * self.now.search.w + right - (y * self.now.search.w + left))
            (drop (y * self.now.search.w + left) self.now.cells.now) }
    {
        let start = y * self.search.w;
        &self.cells[start + left..start + right]
    }
}
