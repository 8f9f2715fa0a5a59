// The frame pass: from an image and its parameters to the list of its corners, over borrowed buffers.
#![tactic(auto)]

mod bands; // the corners of a whole image, by bands of rows
mod box_corners; // the corners of one box
mod checked; // CheckedFrame: an image and parameters that no rule refuses
mod search;
mod shifting; // corners moved by a box's corner

ghost use Rattle.corner_list.specs.Buffer.{contents, SameSlices};
ghost use Rattle.patch_corners.specs.OneMap.{choice_of};
ghost use Rattle.frame.specs.Frame.{buffers, FrameFound};

use checked::CheckedFrame;
use corner_list::CornerBuffer;
use frame_params::FrameParams;
use lists::Refusal;

// How many corners are in the corner buffer, and how many ties the peaks found before merging have.
#[derive(Clone, Copy)]
pub struct Found {
    pub corners: usize,
    pub ties: u64,
}

// Finds the corners of an image of w by h pixels. They are written to the start of the corner buffer, the seeds of the
// last level to the start of theirs, and the levels above the base to the start of the level buffer. With `exact` the
// peaks of each map are chosen by exact values, otherwise by computed ones.
pub fn find_corners(
    img: &[u8],
    w: usize,
    h: usize,
    p: FrameParams,
    exact: bool,
    map: &mut [f32],
    levels: &mut [u8],
    seeds: &mut CornerBuffer<'_>,
    corners: &mut CornerBuffer<'_>,
) -> Result<Found, Refusal>
    ensures same_seeds { SameSlices seeds.old seeds.new }
    ensures same_corners { SameSlices corners.old corners.new }
    ensures found { FrameFound (choice_of p exact) p img.now w h
        (buffers map.old levels.old (contents seeds.old) (contents corners.old)) result
        (buffers map.new levels.new (contents seeds.new) (contents corners.new)) }
{
    frame_pass::refusal(img.len(), w, h, p, map.len(), levels.len())?;
    let n = pyramid::build_pyramid(img, w, h, p.levels, p.minimum_side, levels)?;
    let frame = CheckedFrame {
        img,
        w,
        h,
        p,
        exact,
    };
    match frame.find_lists(n, levels, map, seeds, corners) {
        Ok(lists) => {
            clearing::clear_list(seeds, lists.seeds);
            let left = merge::table::merge_by_table(corners, map, lists.corners, p.merge_radius)?;
            clearing::clear_list(corners, left);
            Ok(Found {
                corners: left,
                ties: lists.ties,
            })
        }
        Err(refusal) => {
            clearing::clear(map, 0);
            clearing::clear(levels, 0);
            clearing::clear_list(seeds, 0);
            clearing::clear_list(corners, 0);
            Err(refusal)
        }
    }
}
