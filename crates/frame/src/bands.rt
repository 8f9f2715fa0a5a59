// The corners of a whole image, added to a buffer by bands of rows: the responses of a band are computed and searched
// while its part of the map is in the cache.
ghost use Rattle.std.specs.Prelude.{◌≡◌, ◌+◌, ◌-◌, ◌*◌, ◌<◌, ◌≤◌, length};
ghost use Rattle.ring.specs.Ring.{ring_of};
ghost use Rattle.response.specs.Patch.{whole, cells, response_in};
ghost use Rattle.corner_list.specs.Buffer.{contents, SameSlices};
ghost use Rattle.patch_corners.specs.OneMap.{choice_of, corners_in, ties_on};
ghost use Rattle.patch_corners.specs.MapCorners.{centres_in_rows, ties_in_rows};
ghost use Rattle.frame.specs.Internal.{AddsCorners, border_of, RowsHeld, Band};

use crate::checked::CheckedFrame;
use corner_list::CornerBuffer;
use detect::Peaks;
use frame_params::FrameParams;
use lists::Refusal;
use multiscale::Roi;

// The rows of a band: it takes a megabyte at most, so it stays in the cache.
const ROWS: usize = 64;

// A map with more cells goes by bands: it takes 4 MB, more than the cache nearest to a core has for it.
const ONE_MAP: usize = 1048576;

// The border that no peak lies in.
fn border(p: FrameParams) -> usize
    ensures { result ≡ border_of p }
{
    p.ring as usize + p.window as usize + p.centroid_radius as usize
}

impl CheckedFrame<'_> {
    // Computes the rows j up to e of the image's map, and adds the corners of the rows that are then complete: those
    // from a border before j up to a border before e.
    fn add_band(
        &self,
        j: usize,
        e: usize,
        map: &mut [f32],
        list: &mut CornerBuffer<'_>,
        held: usize,
    ) -> Result<Peaks, Refusal>
        requires { (self.now.w * self.now.h ≤ length map.old) × Band self.now.w self.now.h j e
            × RowsHeld (whole self.now.img.now self.now.w self.now.h (ring_of self.now.p.ring)) self.now.w j map.old }
        ensures same_slices { SameSlices list.old list.new }
        ensures added { AddsCorners (centres_in_rows self.now.p self.now.exact
            (cells (whole self.now.img.now self.now.w self.now.h (ring_of self.now.p.ring))) self.now.w self.now.h
            (j - border_of self.now.p) (e - border_of self.now.p))
            (ties_in_rows self.now.p self.now.exact
            (cells (whole self.now.img.now self.now.w self.now.h (ring_of self.now.p.ring))) self.now.w self.now.h
            (j - border_of self.now.p) (e - border_of self.now.p))
            held (contents list.old) result (contents list.new) }
        ensures rows_held { RowsHeld
            (whole self.now.img.now self.now.w self.now.h (ring_of self.now.p.ring)) self.now.w e map.new }
    {
        response::chess_response_u8_patch(
            self.img,
            self.w,
            self.h,
            self.p.ring,
            0,
            j,
            self.w,
            e,
            &mut map[j * self.w..e * self.w],
        )?;
        let b = border(self.p);
        patch_corners::add_row_corners(
            &map[..self.h * self.w],
            self.w,
            self.h,
            j.saturating_sub(b),
            e.saturating_sub(b),
            self.p,
            self.exact,
            list,
            held,
        )
    }

    // Adds the corners of the image: as one map, or band by band if the map is large.
    pub(crate) fn add_image_corners(
        &self,
        map: &mut [f32],
        list: &mut CornerBuffer<'_>,
    ) -> Result<Peaks, Refusal>
        requires { self.now.w * self.now.h ≤ length map.old }
        ensures same_slices { SameSlices list.old list.new }
        ensures added { AddsCorners (corners_in self.now.p (choice_of self.now.p self.now.exact)
            (whole self.now.img.now self.now.w self.now.h (ring_of self.now.p.ring)))
            (ties_on self.now.p (choice_of self.now.p self.now.exact)
            (whole self.now.img.now self.now.w self.now.h (ring_of self.now.p.ring)))
            0 (contents list.old) result (contents list.new) }
    {
        if self.img.len() <= ONE_MAP {
            let area = Roi {
                x0: 0,
                y0: 0,
                x1: self.w,
                y1: self.h,
            };
            return self.add_patch_corners(area, map, list, 0);
        }
        let mut held = 0usize;
        let mut ties = 0u64;
        for j in (0..self.h).step_by(ROWS) {
            let e = self.h.min(j + ROWS);
            let more = self.add_band(j, e, map, list, held)?;
            held += more.count;
            ties += more.ties;
        }
        Ok(Peaks { count: held, ties })
    }
}
