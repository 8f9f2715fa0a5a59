// The corners of an uploaded photograph: the frame pass on its pixels.
#![tactic(auto)]

ghost use Rattle.corner_list.specs.Buffer.{contents, SameSlices};
ghost use Rattle.patch_corners.specs.OneMap.{choice_of};
ghost use Rattle.frame.specs.Frame.{buffers};
ghost use Rattle.pgm_frame.specs.PgmFrame.{PhotographFound};

use corner_list::CornerBuffer;
use frame::{Found, find_corners};
use frame_params::FrameParams;
use lists::Refusal;

// Finds the corners of a binary PGM photograph, as `find_corners` does for its pixels.
pub fn find_pgm_corners(
    upload: &[u8],
    p: FrameParams,
    exact: bool,
    map: &mut [f32],
    levels: &mut [u8],
    seeds: &mut CornerBuffer<'_>,
    corners: &mut CornerBuffer<'_>,
) -> Result<Found, Refusal>
    ensures same_seeds { SameSlices seeds.old seeds.new }
    ensures same_corners { SameSlices corners.old corners.new }
    ensures found { PhotographFound (choice_of p exact) p upload.now
        (buffers map.old levels.old (contents seeds.old) (contents corners.old)) result
        (buffers map.new levels.new (contents seeds.new) (contents corners.new)) }
{
    let image = pgm::read_pgm(upload)?;
    let pixels = pgm::pgm_pixels(upload);
    find_corners(
        pixels, image.w, image.h, p, exact, map, levels, seeds, corners,
    )
}
