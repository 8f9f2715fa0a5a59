// The frame stream: sides, parameters and pixels in records, each with one byte for the kind and a body of fixed length
// (RULES 11).
#![tactic(auto)]

mod fields; // the header that the records of kinds 1 and 2 state, and their faults
mod judging; // the records in their order, up to the earliest fault
mod kinds; // a record: its kind, its length and its faults
mod pixels; // the pixels, and the padding after the last
mod reading; // wanted: how much of a stream must be read

ghost use Rattle.stream.specs.Answer.{FrameRead};

use lists::Refusal;
pub use reading::wanted;

// Sides and parameters. Threshold and merge radius are the 32 bits as read: a NaN may have any pattern.
#[derive(Clone, Copy)]
pub struct Header {
    pub width: usize,
    pub height: usize,
    pub ring: u32,
    pub threshold_bits: u32,
    pub window: u32,
    pub least_neighbours: u32,
    pub centroid_radius: u32,
    pub merge_bits: u32,
    pub levels: u32,
    pub minimum_side: usize,
    pub search_radius: u32,
}

// The largest side of a frame in a stream.
pub const LARGEST_STREAM_SIDE: usize = 96;

// The pixels of the largest.
pub const MOST_PIXELS: usize = LARGEST_STREAM_SIDE * LARGEST_STREAM_SIDE;

// Reads a frame: returns its header and stores the image's pixels at the start of the buffer, whose rest stays. The
// earliest fault refuses the stream. A refused stream changes nothing, so everything is checked before a pixel is
// stored.
pub fn read_frame(input: &[u8], pixels: &mut [u8; MOST_PIXELS]) -> Result<Header, Refusal>
    ensures { FrameRead input.now pixels.old result pixels.new }
{
    judging::stream_fault(input)?;
    let sides = &input[1..5];
    let parameters = &input[6..22];
    let header = fields::header_of(sides, parameters);
    pixels::store_pixels(input, header.width * header.height, pixels);
    Ok(header)
}
