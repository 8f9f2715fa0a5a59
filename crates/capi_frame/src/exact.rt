// Written by tools/entries; not edited by hand.
ghost use Rattle.std.specs.Prelude.{true};
ghost use Rattle.corner_list.specs.CornerList.{slices};
ghost use Rattle.frame_params.specs.Params.{params};
ghost use Rattle.frame.specs.Frame.{buffers};
ghost use Rattle.capi_frame.specs.Finding.{CornersFound};

use corner_list::CornerBuffer;
use frame::find_corners;
use frame_params::params_of;

// Finds the corners of an image of w by h pixels, with peaks chosen by exact values. They are written to the start of
// the corner buffer (cx, cy, cs, cn). `count` gets their number, and `ties` the number of ties of the peaks found before
// merging.
#[unsafe(no_mangle)]
pub extern "C" fn zakdomp_find_exact_corners(
    img: &[u8],
    w: usize,
    h: usize,
    ring: u32,
    threshold: f32,
    window: u32,
    least_neighbours: u32,
    centroid_radius: u32,
    merge_radius: f32,
    level_count: u32,
    minimum_side: usize,
    search_radius: u32,
    map: &mut [f32],
    levels: &mut [u8],
    sx: &mut [f32],
    sy: &mut [f32],
    ss: &mut [f32],
    sn: &mut [u32],
    cx: &mut [f32],
    cy: &mut [f32],
    cs: &mut [f32],
    cn: &mut [u32],
    count: &mut usize,
    ties: &mut u64,
) -> u8
    ensures { CornersFound true
        (params ring threshold window least_neighbours centroid_radius merge_radius level_count
        minimum_side search_radius) img.now w h
        (buffers map.old levels.old
        (slices sx.old sy.old ss.old sn.old)
        (slices cx.old cy.old cs.old cn.old))
        count.old ties.old result
        (buffers map.new levels.new
        (slices sx.new sy.new ss.new sn.new)
        (slices cx.new cy.new cs.new cn.new))
        count.new ties.new }
{
    let p = params_of(
        ring,
        threshold,
        window,
        least_neighbours,
        centroid_radius,
        merge_radius,
        level_count,
        minimum_side,
        search_radius,
    );
    let mut seeds = CornerBuffer {
        xs: sx,
        ys: sy,
        strengths: ss,
        neighbours: sn,
    };
    let mut corners = CornerBuffer {
        xs: cx,
        ys: cy,
        strengths: cs,
        neighbours: cn,
    };
    let answer = find_corners(img, w, h, p, true, map, levels, &mut seeds, &mut corners);
    match answer {
        Ok(found) => {
            *count = found.corners;
            *ties = found.ties;
            0
        }
        Err(refusal) => u8::from(refusal),
    }
}
