// What is refused: what the reader would not accept, and a buffer that is too short.
ghost use Rattle.std.specs.Prelude.{◌≡◌};
ghost use Rattle.lists.specs.Refusals.{verdict};
ghost use Rattle.stream.specs.Stream.{sides_outside};
ghost use Rattle.frame_writer.specs.FrameWriter.{is_too_wide, refusal_of};

use crate::records;
use lists::Refusal;
use stream::Header;

// Whether a side is above the largest.
fn is_large(width: usize, height: usize) -> bool
    ensures { result ≡ sides_outside width height }
{
    stream::LARGEST_STREAM_SIDE < width || stream::LARGEST_STREAM_SIDE < height
}

// Whether a value is too wide for its field: a byte, or two for the minimum size.
fn is_too_wide(header: Header) -> bool
    ensures { result ≡ is_too_wide header }
{
    255 < header.least_neighbours
        || 255 < header.levels
        || 65535 < header.minimum_side
        || 255 < header.search_radius
}

// Why no stream is written to a buffer of `places` places.
pub(crate) fn refusal(header: Header, pixels: &[u8], places: usize) -> Result<(), Refusal>
    ensures { result ≡ verdict (refusal_of header pixels.now places) }
{
    if is_large(header.width, header.height) {
        return Err(Refusal::SideTooLarge);
    }
    if pixels.len() != header.width * header.height {
        return Err(Refusal::WrongLength);
    }
    if frame_params::is_outside(header.ring, header.window, header.centroid_radius) {
        return Err(Refusal::OutOfRange);
    }
    if is_too_wide(header) {
        return Err(Refusal::OutOfRange);
    }
    if merge_radius::is_outside(float32::from_bits(header.merge_bits)) {
        return Err(Refusal::RadiusOutside);
    }
    if places < records::length_of(pixels.len()) {
        return Err(Refusal::StreamTooLong);
    }
    Ok(())
}
