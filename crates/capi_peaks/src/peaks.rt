// The peaks of a response map.
ghost use Rattle.std.specs.Prelude.{length};
ghost use Rattle.corner_list.specs.CornerList.{slices};
ghost use Rattle.detect.specs.Detect.{search_of, starts_in, ties_in, conditions};
ghost use Rattle.capi_peaks.specs.Peaks.{PeaksFound};

use corner_list::CornerBuffer;

// Writes the peaks of a map, by computed values, after the first `held` corners of a buffer. `added` gets their number,
// and `ties` the number of their ties.
#[unsafe(no_mangle)]
pub extern "C" fn zakdomp_peaks(
    map: &[f32],
    w: usize,
    h: usize,
    ring: u32,
    threshold: f32,
    window: u32,
    least_neighbours: u32,
    centroid_radius: u32,
    xs: &mut [f32],
    ys: &mut [f32],
    strengths: &mut [f32],
    neighbours: &mut [u32],
    held: usize,
    added: &mut usize,
    ties: &mut u64,
) -> u8
    ensures { PeaksFound (conditions (length map.now) w h ring window centroid_radius)
        (starts_in map.now (search_of w h ring threshold window least_neighbours centroid_radius))
        (ties_in map.now (search_of w h ring threshold window least_neighbours centroid_radius))
        held (slices xs.old ys.old strengths.old neighbours.old)
        added.old ties.old
        result (slices xs.new ys.new strengths.new neighbours.new)
        added.new ties.new }
{
    let mut list = CornerBuffer {
        xs,
        ys,
        strengths,
        neighbours,
    };
    match detect::find_peaks(
        map,
        w,
        h,
        ring,
        threshold,
        window,
        least_neighbours,
        centroid_radius,
        false,
        &mut list,
        held,
    ) {
        Ok(peaks) => {
            *added = peaks.count;
            *ties = peaks.ties;
            0
        }
        Err(refusal) => u8::from(refusal),
    }
}
