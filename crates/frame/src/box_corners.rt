// The corners of one box of an image, added to a buffer: the box's response map, as far as it is read, and its corners.
ghost use Rattle.std.specs.Prelude.{length, ◌≡◌, ◌≤◌, ◌*◌};
ghost use Rattle.ring.specs.Ring.{ring_of};
ghost use Rattle.corner_list.specs.Buffer.{contents, SameSlices};
ghost use Rattle.patch_corners.specs.OneMap.{choice_of, corners_in, ties_on};
ghost use Rattle.patch_corners.specs.Internal.{margin_of};
ghost use Rattle.frame.specs.Internal.{AddsCorners};

use crate::checked::CheckedFrame;
use corner_list::CornerBuffer;
use detect::Peaks;
use frame_params::FrameParams;
use lists::Refusal;
use multiscale::Roi;

// How many cells at each edge of a map are never read.
fn margin(p: FrameParams) -> usize
    ensures { result ≡ margin_of p }
{
    p.ring as usize + p.window.min(p.centroid_radius) as usize
}

impl CheckedFrame<'_> {
    // Adds the corners of a box of the image behind the first `held` of a buffer, by the box's columns and rows. The
    // box's map stands first in the map buffer.
    pub(crate) fn add_patch_corners(
        &self,
        area: Roi,
        map: &mut [f32],
        list: &mut CornerBuffer<'_>,
        held: usize,
    ) -> Result<Peaks, Refusal>
        requires { self.now.w * self.now.h ≤ length map.old }
        ensures same_slices { SameSlices list.old list.new }
        ensures added { AddsCorners (corners_in self.now.p (choice_of self.now.p self.now.exact) (record {
          img = self.now.img.now;
          w = self.now.w;
          h = self.now.h;
          ring = ring_of self.now.p.ring;
          x0 = area.x0;
          y0 = area.y0;
          x1 = area.x1;
          y1 = area.y1;
        }))
            (ties_on self.now.p (choice_of self.now.p self.now.exact) (record {
              img = self.now.img.now;
              w = self.now.w;
              h = self.now.h;
              ring = ring_of self.now.p.ring;
              x0 = area.x0;
              y0 = area.y0;
              x1 = area.x1;
              y1 = area.y1;
            }))
            held (contents list.old) result (contents list.new) }
    {
        let Ok(patch) = response::inner_patch(
            self.img,
            self.w,
            self.h,
            self.p.ring,
            area.x0,
            area.y0,
            area.x1,
            area.y1,
            margin(self.p),
            map,
        ) else {
            return Err(Refusal::MapTooShort);
        };
        let cells = patch.h * patch.w;
        patch_corners::add_map_corners(
            &map[..cells],
            patch.w,
            patch.h,
            self.p,
            self.exact,
            list,
            held,
        )
    }
}
