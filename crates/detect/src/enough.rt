// Whether a map has enough peaks (RULES 26): it is searched in row order, and no further than the last peak that is
// needed.
ghost use Rattle.std.specs.Prelude.{◌≡◌, ◌≤◌, length};
ghost use Rattle.lists.specs.Limits.{largest_border};
ghost use Rattle.detect.specs.Detect.{search_of, peaks_in, conditions};
ghost use Rattle.detect.specs.Enough.{rows_inside, enough_of, EnoughFound};

use crate::Search;
use crate::searched::SearchedMap;
use lists::Refusal;

// Whether there are at least `wanted` peaks, with how many rows were looked at.
#[derive(Clone, Copy)]
pub enum Enough {
    Yes(usize),
    No(usize),
}

// How many rows lie inside the border: none if a side is at most twice the border.
fn rows_inside(s: Search) -> usize
    requires { s.border ≤ largest_border }
    ensures { result ≡ rows_inside s }
{
    let b = 2 * s.border;
    if s.w <= b {
        return 0;
    }
    s.h.saturating_sub(b)
}

// Searches for that many peaks, one after the other, and stops at the last of them.
fn search_for(map: &SearchedMap, wanted: usize) -> Enough
    ensures { result ≡ enough_of map.now.search wanted (peaks_in map.now.cells.now map.now.search) }
{
    let border = map.search.border;
    let mut x = border;
    let mut y = border;
    let mut rows = 0;
    for _ in 0..wanted {
        let Some(peak) = map.next_peak(x, y) else {
            return Enough::No(rows_inside(map.search));
        };
        x = peak.x + 1;
        y = peak.y;
        rows = y - border + 1;
    }
    Enough::Yes(rows)
}

// Whether a map of w by h has at least `wanted` peaks, and how many rows inside the border were looked at to find out.
pub fn has_peaks(
    map: &[f32],
    w: usize,
    h: usize,
    ring: u32,
    threshold: f32,
    window: u32,
    least_neighbours: u32,
    refine_radius: u32,
    wanted: usize,
) -> Result<Enough, Refusal>
    ensures { EnoughFound (conditions (length map.now) w h ring window refine_radius)
        map.now
        (search_of w h ring threshold window least_neighbours refine_radius) wanted result }
{
    crate::refusal(map.len(), w, h, ring, window, refine_radius)?;
    let search = crate::search_of(
        w,
        h,
        ring,
        threshold,
        window,
        least_neighbours,
        refine_radius,
        false,
    );
    let searched = SearchedMap { cells: map, search };
    Ok(search_for(&searched, wanted))
}
