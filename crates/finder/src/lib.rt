// From the bytes of a frame stream to the bytes of its listing: reader, frame pass and listing, one after the other.
#![tactic(auto)]

ghost use Rattle.std.specs.Prelude.{◌≡◌};
ghost use Rattle.lists.specs.Buffer.{Written};
ghost use Rattle.finder.specs.Finder.{params_of, frame_text, output_of};
ghost use Rattle.finder.specs.Internal.{Lists};

use corner_list::CornerBuffer;
use frame_params::FrameParams;
use listing::{LONGEST, MOST_CORNERS};
use lists::Refusal;
use stream::{Header, MOST_PIXELS};

// The parameters that a header states.
fn params_of(header: Header) -> FrameParams
    ensures { result ≡ params_of header }
{
    FrameParams {
        ring: header.ring,
        threshold: float32::from_bits(header.threshold_bits),
        window: header.window,
        least_neighbours: header.least_neighbours,
        centroid_radius: header.centroid_radius,
        merge_radius: float32::from_bits(header.merge_bits),
        levels: header.levels,
        minimum_side: header.minimum_side,
        search_radius: header.search_radius,
    }
}

// Writes the listing of a frame whose pixels are given.
fn list_frame(pixels: &[u8], header: Header, out: &mut [u8; LONGEST]) -> Result<usize, Refusal>
    ensures { Lists (frame_text header pixels.now) out.old result out.new }
{
    let mut map = [0.0f32; MOST_PIXELS];
    let mut levels = [0u8; MOST_PIXELS / 3];
    let mut sx = [0.0f32; MOST_CORNERS];
    let mut sy = [0.0f32; MOST_CORNERS];
    let mut ss = [0.0f32; MOST_CORNERS];
    let mut sn = [0u32; MOST_CORNERS];
    let mut cx = [0.0f32; MOST_CORNERS];
    let mut cy = [0.0f32; MOST_CORNERS];
    let mut cs = [0.0f32; MOST_CORNERS];
    let mut cn = [0u32; MOST_CORNERS];
    let mut seeds = CornerBuffer {
        xs: &mut sx,
        ys: &mut sy,
        strengths: &mut ss,
        neighbours: &mut sn,
    };
    let mut corners = CornerBuffer {
        xs: &mut cx,
        ys: &mut cy,
        strengths: &mut cs,
        neighbours: &mut cn,
    };
    let found = frame::find_corners(
        pixels,
        header.width,
        header.height,
        params_of(header),
        false,
        &mut map,
        &mut levels,
        &mut seeds,
        &mut corners,
    )?;
    listing::write_corners(corners.view(), found.corners, out)
}

// Writes the listing of a frame stream.
fn list_stream(input: &[u8], out: &mut [u8; LONGEST]) -> Result<usize, Refusal>
    ensures { Lists (output_of input.now) out.old result out.new }
{
    let mut pixels = [0u8; MOST_PIXELS];
    let header = stream::read_frame(input, &mut pixels)?;
    list_frame(&pixels[..header.width * header.height], header, out)
}

// Writes the listing of a frame stream, or the refusal, to the start of a buffer, and returns how long it is.
pub fn find(input: &[u8], out: &mut [u8; LONGEST]) -> usize
    ensures { Written (output_of input.now) out.old result out.new }
{
    match list_stream(input, out) {
        Ok(end) => end,
        Err(refusal) => listing::write_refusal(u8::from(refusal), out),
    }
}
