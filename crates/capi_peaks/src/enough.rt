// Whether a response map has enough peaks.
ghost use Rattle.std.specs.Prelude.{length};
ghost use Rattle.detect.specs.Detect.{search_of, conditions};
ghost use Rattle.capi_peaks.specs.Enough.{PeaksCounted};

use detect::Enough;

// Sets `enough` to 1 if a map has at least `wanted` peaks and to 0 if not, and `rows` to the number of rows looked at.
#[unsafe(no_mangle)]
pub extern "C" fn zakdomp_has_peaks(
    map: &[f32],
    w: usize,
    h: usize,
    ring: u32,
    threshold: f32,
    window: u32,
    least_neighbours: u32,
    centroid_radius: u32,
    wanted: usize,
    enough: &mut u8,
    rows: &mut usize,
) -> u8
    ensures { PeaksCounted (conditions (length map.now) w h ring window centroid_radius)
        map.now
        (search_of w h ring threshold window least_neighbours centroid_radius) wanted enough.old
        rows.old
        result enough.new rows.new }
{
    match detect::has_peaks(
        map,
        w,
        h,
        ring,
        threshold,
        window,
        least_neighbours,
        centroid_radius,
        wanted,
    ) {
        Ok(Enough::Yes(first)) => {
            *enough = 1;
            *rows = first;
            0
        }
        Ok(Enough::No(all)) => {
            *enough = 0;
            *rows = all;
            0
        }
        Err(refusal) => u8::from(refusal),
    }
}
