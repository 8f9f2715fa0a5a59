// The limits of the responses.
ghost use Rattle.capi_maps.specs.Limits.{LimitsTold};

// Writes a low and a high number of fifths for each cell to the start of `lows` and `highs`.
#[unsafe(no_mangle)]
pub extern "C" fn zakdomp_response_limits(
    low: &[u8],
    high: &[u8],
    w: usize,
    h: usize,
    ring: u32,
    lows: &mut [i32],
    highs: &mut [i32],
) -> u8
    ensures { LimitsTold low.now high.now w h ring lows.old
        highs.old result lows.new highs.new }
{
    lists::number_of(response_limits::response_limits(low, high, w, h, ring, lows, highs))
}
