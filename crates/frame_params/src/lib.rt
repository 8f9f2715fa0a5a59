// The parameters of a frame, and whether they are in their ranges: condition 3.
#![tactic(auto)]

ghost use Rattle.std.specs.Prelude.{◌≡◌};
ghost use Rattle.frame_params.specs.Params.{params};
ghost use Rattle.frame_params.specs.Ranges.{range_outside, parameters_fit};

// The parameters of a frame (RULES 1.7): the ring's radius, the threshold of a peak, the radius of its window and the
// least number of positive neighbours, the centroid's radius, the merge radius, the level count and the minimum size of
// a level, and the search radius of a seed.
#[derive(Clone, Copy)]
pub struct FrameParams {
    pub ring: u32,
    pub threshold: f32,
    pub window: u32,
    pub least_neighbours: u32,
    pub centroid_radius: u32,
    pub merge_radius: f32,
    pub levels: u32,
    pub minimum_side: usize,
    pub search_radius: u32,
}

// The nine numbers as parameters.
pub fn params_of(
    ring: u32,
    threshold: f32,
    window: u32,
    least_neighbours: u32,
    centroid_radius: u32,
    merge_radius: f32,
    levels: u32,
    minimum_side: usize,
    search_radius: u32,
) -> FrameParams
    ensures { result ≡ params ring threshold window least_neighbours centroid_radius merge_radius levels
        minimum_side search_radius }
{
    FrameParams {
        ring,
        threshold,
        window,
        least_neighbours,
        centroid_radius,
        merge_radius,
        levels,
        minimum_side,
        search_radius,
    }
}

// Whether ring, window or centroid radius is out of range.
pub fn is_outside(ring: u32, window: u32, centroid_radius: u32) -> bool
    ensures { result ≡ range_outside ring window centroid_radius }
{
    !ring::is_ring(ring)
        || lists::LARGEST_RADIUS < window
        || lists::LARGEST_RADIUS < centroid_radius
}

// Whether the parameters of a frame that have a range are in it. The merge radius has a condition of its own.
pub fn parameters_fit(p: FrameParams) -> bool
    ensures { result ≡ parameters_fit p }
{
    !is_outside(p.ring, p.window, p.centroid_radius) && p.search_radius <= lists::LARGEST_SEARCH
}
