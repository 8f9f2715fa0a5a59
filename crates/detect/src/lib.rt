// Peaks of a response map, added to a buffer of corners (RULES 4).
#![tactic(auto)]

mod adding;
mod enough; // has_peaks: whether there are as many as wanted
mod fifths; // the threshold of the choice by exact values
mod neighbors;
mod searched; // a map with what it is searched with
mod searching;
mod table;

ghost use Rattle.std.specs.Prelude.{◌≡◌, length, if◌then◌else◌};
ghost use Rattle.float32.specs.Float32.{lift};
ghost use Rattle.detect.specs.Fifths.{between_fifths};
ghost use Rattle.lists.specs.Refusals.{lowest, verdict};
ghost use Rattle.corner_list.specs.Buffer.{contents, SameSlices};
ghost use Rattle.detect.specs.Detect.{search_by, starts_in, ties_in, conditions, PeaksAdded};

use adding::{FEW, LARGE_MAP, MANY};
use corner_list::CornerBuffer;
pub use enough::{Enough, has_peaks};
use lists::Refusal;
use searched::SearchedMap;

// What a map is searched with: its sides, the border that no peak lies in, the window's radius, the lifted threshold,
// the least number of positive neighbours, and whether peaks are chosen by exact values: the flag of RULES 34.
// Public because the promise mentions it.
#[derive(Clone, Copy)]
pub struct Search {
    pub w: usize,
    pub h: usize,
    pub border: usize,
    pub window: usize,
    pub threshold: f32,
    pub least_neighbours: u32,
    pub exact: bool,
}

// How many peaks were added to a buffer, and how many ties they have.
#[derive(Clone, Copy)]
pub struct Peaks {
    pub count: usize,
    pub ties: u64,
}

// Why a map or an image of `size` cells, w by h, cannot be searched with these parameters.
pub fn refusal(
    size: usize,
    w: usize,
    h: usize,
    ring: u32,
    window: u32,
    refine_radius: u32,
) -> Result<(), Refusal>
    ensures { result ≡ verdict (lowest (conditions size w h ring window refine_radius)) }
{
    image_size::refusal(size, w, h)?;
    if frame_params::is_outside(ring, window, refine_radius) {
        return Err(Refusal::OutOfRange);
    }
    Ok(())
}

// The threshold that cells are compared with.
fn threshold_of(threshold: f32, exact: bool) -> f32
    ensures { result ≡ (if exact then between_fifths (lift threshold) else lift threshold) }
{
    if exact {
        fifths::between_fifths(threshold)
    } else {
        float32::lifted(threshold)
    }
}

// What a map is searched with, from the parameters.
fn search_of(
    w: usize,
    h: usize,
    ring: u32,
    threshold: f32,
    window: u32,
    least_neighbours: u32,
    radius: u32,
    exact: bool,
) -> Search
    ensures { result ≡ search_by exact w h ring threshold window least_neighbours radius }
{
    let border = ring as usize + window as usize + radius as usize;
    Search {
        w,
        h,
        border,
        window: window as usize,
        threshold: threshold_of(threshold, exact),
        least_neighbours,
        exact,
    }
}

// Finds the peaks of a map of w by h, in row order, adds the corners that they start as to a buffer, after the first
// `held`, and sums their ties. With `exact` the peaks of a response map are those of its exact values (RULES 34). The
// table of the first peaks is on the stack, where both have a place: 4 KB for a small map, 32 KB for a larger one.
pub fn find_peaks(
    map: &[f32],
    w: usize,
    h: usize,
    ring: u32,
    threshold: f32,
    window: u32,
    least_neighbours: u32,
    refine_radius: u32,
    exact: bool,
    list: &mut CornerBuffer<'_>,
    held: usize,
) -> Result<Peaks, Refusal>
    ensures same_slices { SameSlices list.old list.new }
    ensures added { PeaksAdded (conditions (length map.now) w h ring window refine_radius)
        (starts_in map.now (search_by exact w h ring threshold window least_neighbours refine_radius))
        (ties_in map.now (search_by exact w h ring threshold window least_neighbours refine_radius))
        held (contents list.old) result (contents list.new) }
{
    refusal(map.len(), w, h, ring, window, refine_radius)?;
    let search = search_of(
        w,
        h,
        ring,
        threshold,
        window,
        least_neighbours,
        refine_radius,
        exact,
    );
    let searched = SearchedMap { cells: map, search };
    if map.len() < LARGE_MAP {
        let mut table = [0u64; FEW];
        return searched.add_peaks(&mut table, list, held);
    }
    let mut table = [0u64; MANY];
    searched.add_peaks(&mut table, list, held)
}
