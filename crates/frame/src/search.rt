// The search of the levels: the seeds, which are the corners of the last one, and the corners in their boxes.
ghost use Rattle.std.specs.Prelude.{◌≤◌, ◌≡◌, ◌*◌, [], length, None};
ghost use Rattle.std.specs.Result.{result_unwrap_or};
ghost use Rattle.lists.specs.Limits.{largest_map, last_level, most_levels};
ghost use Rattle.corner_list.specs.CornerList.{places_of, corners_of};
ghost use Rattle.corner_list.specs.Buffer.{contents, seen, SameSlices};
ghost use Rattle.multiscale.specs.Multiscale.{roi_of};
ghost use Rattle.patch_corners.specs.OneMap.{choice_of};
ghost use Rattle.frame_pass.specs.Pass.{context_at, corners_about, ties_about, seeds_of, found_of, ties_found};
ghost use Rattle.frame.specs.Internal.{BuiltLevels, AddsCorners, SeedsAdded, found_by, ties_by};
ghost use Rattle.frame.specs.Internal.{Searched};

use crate::checked::CheckedFrame;
use crate::shifting;
use corner_list::{Corner, CornerBuffer, CornerView};
use detect::Peaks;
use lists::Refusal;
use multiscale::{Roi, RoiContext};

// How many seeds and corners are at the start of their buffers, and the ties of the corners' peaks.
#[derive(Clone, Copy)]
pub(crate) struct Lists {
    pub seeds: usize,
    pub corners: usize,
    pub ties: u64,
}

impl<'a> CheckedFrame<'a> {
    // The box of a seed on level k: none if it has no box, or if it is refused.
    fn box_of(&self, k: usize, seed: Corner) -> Option<Roi>
        requires { k ≤ last_level }
        ensures { result ≡ result_unwrap_or
            (roi_of (context_at self.now.p [] self.now.w self.now.h k) seed) None }
    {
        let context = RoiContext {
            width: self.w,
            height: self.h,
            ring: self.p.ring,
            window: self.p.window,
            centroid_radius: self.p.centroid_radius,
            search_radius: self.p.search_radius,
            level: k as u32,
        };
        context.compute_roi(seed).unwrap_or(None)
    }

    // Adds the corners of the box of a seed on level k after the first `held` of a buffer, moved by the box's corner.
    fn add_patch(
        &self,
        k: usize,
        seed: Corner,
        map: &mut [f32],
        list: &mut CornerBuffer<'_>,
        held: usize,
    ) -> Result<Peaks, Refusal>
        requires { (self.now.w * self.now.h ≤ length map.old) × (held ≤ places_of (contents list.old))
            × (k ≤ last_level) }
        ensures same_slices { SameSlices list.old list.new }
        ensures added { AddsCorners (corners_about self.now.p self.now.img.now self.now.w self.now.h
            (choice_of self.now.p self.now.exact) k seed)
            (ties_about self.now.p self.now.img.now self.now.w self.now.h
            (choice_of self.now.p self.now.exact) k seed)
            held (contents list.old) result (contents list.new) }
    {
        let Some(area) = self.box_of(k, seed) else {
            return Ok(Peaks { count: 0, ties: 0 });
        };
        let added = self.add_patch_corners(area, map, list, held)?;
        shifting::shift(list.xs, held, added.count, area.x0 as f32);
        shifting::shift(list.ys, held, added.count, area.y0 as f32);
        Ok(added)
    }

    // Writes the corners before merging to the start of a buffer: with one level those of the whole image, with more
    // those of the boxes of the first m seeds. Sums the ties of their peaks.
    fn add_found(
        &self,
        n: usize,
        seeds: CornerView<'_>,
        m: usize,
        map: &mut [f32],
        list: &mut CornerBuffer<'_>,
    ) -> Result<Peaks, Refusal>
        requires enough { self.now.w * self.now.h ≤ length map.old }
        requires few { (n ≤ most_levels) × (m ≤ largest_map) }
        ensures same_slices { SameSlices list.old list.new }
        ensures added { AddsCorners (found_by self.now.p self.now.img.now self.now.w self.now.h
            (choice_of self.now.p self.now.exact) n (corners_of (seen seeds.entry) m))
            (ties_by self.now.p self.now.img.now self.now.w self.now.h
            (choice_of self.now.p self.now.exact) n (corners_of (seen seeds.entry) m))
            0 (contents list.old) result (contents list.new) }
    {
        if n == 1 {
            return self.add_image_corners(map, list);
        }
        let k = n.saturating_sub(1);
        let mut held = 0usize;
        let mut ties = 0u64;
        for i in 0..m {
            let more = self.add_patch(k, seeds.at(i), map, list, held)?;
            held += more.count;
            ties += more.ties;
        }
        Ok(Peaks { count: held, ties })
    }

    // Writes the seeds of n levels that were built to the start of a buffer: with more than one level, the corners of
    // the last.
    fn add_seeds(
        &self,
        n: usize,
        levels: &'a [u8],
        map: &mut [f32],
        list: &mut CornerBuffer<'_>,
    ) -> Result<Peaks, Refusal>
        requires enough { self.now.w * self.now.h ≤ length map.old }
        requires built_levels { BuiltLevels self.now.p self.now.img.now self.now.w self.now.h n levels.now }
        ensures same_slices { SameSlices list.old list.new }
        ensures added { SeedsAdded self.now.p self.now.img.now self.now.w self.now.h
            (choice_of self.now.p self.now.exact) n (contents list.old) result (contents list.new) }
    {
        if n < 2 {
            return Ok(Peaks { count: 0, ties: 0 });
        }
        let k = n - 1;
        let last = CheckedFrame {
            img: pyramid::level(
                self.img,
                levels,
                self.w,
                self.h,
                self.p.levels,
                self.p.minimum_side,
                k,
            ),
            w: self.w >> k,
            h: self.h >> k,
            p: self.p,
            exact: self.exact,
        };
        last.add_image_corners(map, list)
    }

    // Writes the seeds and the corners before merging to the start of their buffers.
    pub(crate) fn find_lists(
        &self,
        n: usize,
        levels: &'a [u8],
        map: &mut [f32],
        seeds: &mut CornerBuffer<'_>,
        corners: &mut CornerBuffer<'_>,
    ) -> Result<Lists, Refusal>
        requires enough { self.now.w * self.now.h ≤ length map.old }
        requires built_levels { BuiltLevels self.now.p self.now.img.now self.now.w self.now.h n levels.now }
        ensures same_seeds { SameSlices seeds.old seeds.new }
        ensures same_corners { SameSlices corners.old corners.new }
        ensures searched { Searched (seeds_of self.now.p self.now.img.now self.now.w self.now.h
            (choice_of self.now.p self.now.exact) n)
            (found_of self.now.p self.now.img.now self.now.w self.now.h (choice_of self.now.p self.now.exact) n)
            (ties_found self.now.p self.now.img.now self.now.w self.now.h (choice_of self.now.p self.now.exact) n)
            (contents seeds.old) (contents corners.old) result (contents seeds.new) (contents corners.new) }
    {
        let first = self.add_seeds(n, levels, map, seeds)?;
        let found = self.add_found(n, seeds.view(), first.count, map, corners)?;
        Ok(Lists {
            seeds: first.count,
            corners: found.count,
            ties: found.ties,
        })
    }
}
