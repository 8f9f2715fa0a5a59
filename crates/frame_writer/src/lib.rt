// Writes the frame stream: the one stream of sides, parameters and pixels that the reader would accept (RULES 30).
#![tactic(auto)]

mod judging; // refusal: what the reader would not accept, and a buffer that is too short
mod records; // the bytes of the records

ghost use Rattle.frame_writer.specs.FrameWriter.{FrameWritten};

use lists::Refusal;
use stream::Header;

// Writes the stream of a frame to the start of a buffer, and returns how long it is; the rest of the buffer stays. A
// refused call changes nothing.
pub fn write_frame(header: Header, pixels: &[u8], out: &mut [u8]) -> Result<usize, Refusal>
    ensures { FrameWritten header pixels.now out.old result out.new }
{
    judging::refusal(header, pixels, out.len())?;
    let end = records::length_of(pixels.len());
    records::put_frame(header, pixels, &mut out[..end]);
    Ok(end)
}
