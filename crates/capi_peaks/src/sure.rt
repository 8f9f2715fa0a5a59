// Whether a place is a sure peak: one of every image between two.
ghost use Rattle.capi_peaks.specs.Sure.{SureTold};

// Sets `sure` to 1 if the place (x, y) of two maps is a sure peak, and to 0 if it is not.
#[unsafe(no_mangle)]
pub extern "C" fn zakdomp_sure_peak(
    lows: &[i32],
    highs: &[i32],
    w: usize,
    h: usize,
    ring: u32,
    threshold: u32,
    window: u32,
    least: u32,
    centroid: u32,
    x: usize,
    y: usize,
    sure: &mut u8,
) -> u8
    ensures { SureTold lows.now
        highs.now w h ring threshold window least centroid (record { x = x; y = y })
        sure.old result sure.new }
{
    match sure_peak::sure_peak(
        lows, highs, w, h, ring, threshold, window, least, centroid, x, y,
    ) {
        Ok(yes) => {
            *sure = u8::from(yes);
            0
        }
        Err(refusal) => u8::from(refusal),
    }
}
