// The frame stream of sides, parameters and pixels.
ghost use Rattle.stream.specs.Stream.{header};
ghost use Rattle.capi_formats.specs.Writing.{StreamTold};

use stream::Header;

// Writes the stream of a frame to the start of `stream`. `written` gets its length. The floats are given as their bits.
#[unsafe(no_mangle)]
pub extern "C" fn zakdomp_write_stream(
    pixels: &[u8],
    w: usize,
    h: usize,
    ring: u32,
    threshold_bits: u32,
    window: u32,
    least_neighbours: u32,
    centroid_radius: u32,
    merge_bits: u32,
    level_count: u32,
    minimum_side: usize,
    search_radius: u32,
    stream: &mut [u8],
    written: &mut usize,
) -> u8
    ensures { StreamTold (header w h ring threshold_bits window least_neighbours centroid_radius
        merge_bits level_count minimum_side search_radius) pixels.now
        stream.old written.old result stream.new written.new }
{
    let header = Header {
        width: w,
        height: h,
        ring,
        threshold_bits,
        window,
        least_neighbours,
        centroid_radius,
        merge_bits,
        levels: level_count,
        minimum_side,
        search_radius,
    };
    match frame_writer::write_frame(header, pixels, stream) {
        Ok(length) => {
            *written = length;
            0
        }
        Err(refusal) => u8::from(refusal),
    }
}
