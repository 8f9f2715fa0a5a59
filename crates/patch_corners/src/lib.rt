// The corners of a given map, added to a buffer: the map's peaks, each at its centre of mass. The corners of one map of
// a frame, for any choice of its peaks, are defined in specs/OneMap.antt.
#![tactic(auto)]

mod localizing; // corners put at their centres of mass

ghost use Rattle.corner_list.specs.Buffer.{contents, SameSlices};
ghost use Rattle.patch_corners.specs.MapCorners.{CornersAdded, RowCornersAdded};

use corner_list::CornerBuffer;
use detect::Peaks;
use frame_params::FrameParams;
use lists::Refusal;

// Adds the peaks in the rows a up to, not including, b of a map of w by h, by computed or by exact values, after the
// first `held` of a buffer: each at its centre of mass if that is accepted, otherwise at the peak itself. The search
// takes these rows, with a border around them, as a map of its own.
pub fn add_row_corners(
    map: &[f32],
    w: usize,
    h: usize,
    a: usize,
    b: usize,
    p: FrameParams,
    exact: bool,
    list: &mut CornerBuffer<'_>,
    held: usize,
) -> Result<Peaks, Refusal>
    ensures same_slices { SameSlices list.old list.new }
    ensures added { RowCornersAdded p exact map.now w h a b held (contents list.old) result (contents list.new) }
{
    detect::refusal(map.len(), w, h, p.ring, p.window, p.centroid_radius)?;
    let border = p.ring as usize + p.window as usize + p.centroid_radius as usize;
    let end = (b.min(h) + border).min(h);
    let top = a.saturating_sub(border).min(end);
    let peaks = detect::find_peaks(
        &map[top * w..end * w],
        w,
        end - top,
        p.ring,
        p.threshold,
        p.window,
        p.least_neighbours,
        p.centroid_radius,
        exact,
        list,
        held,
    )?;
    localizing::centre_all(map, w, h, p.centroid_radius, top, list, held, peaks.count);
    Ok(peaks)
}

// The same for all rows.
pub fn add_map_corners(
    map: &[f32],
    w: usize,
    h: usize,
    p: FrameParams,
    exact: bool,
    list: &mut CornerBuffer<'_>,
    held: usize,
) -> Result<Peaks, Refusal>
    ensures same_slices { SameSlices list.old list.new }
    ensures added { CornersAdded p exact map.now w h held (contents list.old) result (contents list.new) }
{
    add_row_corners(map, w, h, 0, h, p, exact, list, held)
}
