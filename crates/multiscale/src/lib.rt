// The box of the base image in which a corner of a coarser level, the seed, is looked for again: its region of interest
// (ROI).
#![tactic(auto)]

ghost use Rattle.std.specs.Prelude.{◌≡◌, ◌*◌, ◌≤◌};
ghost use Rattle.lists.specs.Limits.{largest_search, largest_side, largest_border};
ghost use Rattle.lists.specs.Refusals.{verdict};
ghost use Rattle.multiscale.specs.Multiscale.{parameters_fit, refusal_of, border as border_of, roi_radius, span_about};
ghost use Rattle.multiscale.specs.Multiscale.{span_on, bounds};
ghost use Rattle.multiscale.specs.Promise.{Boxed};
ghost use Rattle.multiscale.specs.Internal.{SoundContext};

use corner_list::Corner;
use lists::Refusal;

// The base's sides, the radii of ring, window, centroid and search, and the number of the seed's level.
#[derive(Clone, Copy)]
pub struct RoiContext {
    pub width: usize,
    pub height: usize,
    pub ring: u32,
    pub window: u32,
    pub centroid_radius: u32,
    pub search_radius: u32,
    pub level: u32,
}

// A box of the base: from column x0 and row y0 up to, not including, column x1 and row y1.
#[derive(Clone, Copy)]
pub struct Roi {
    pub x0: usize,
    pub y0: usize,
    pub x1: usize,
    pub y1: usize,
}

// A context with which no seed with coordinates from 0 to the largest is refused.
#[derive(Clone, Copy)]
struct SoundRoi {
    context: RoiContext,
    ghost sound: { SoundContext context },
}

// The ends of the box around a centre on one axis: r pixels both ways, clipped to the border b.
fn span_about(c: usize, r: usize, b: usize, side: usize) -> Option<(usize, usize)>
    requires { (r ≤ largest_search * largest_side) × (b ≤ largest_border) × (side ≤ largest_side) }
    ensures { result ≡ span_about b r side c }
{
    if c < b + 1 || side <= c || side - c <= b + 1 {
        return None;
    }
    let low = b.max(c.saturating_sub(r));
    let high = (c + r + 1).min(side - b);
    if high - low <= 2 * b {
        return None;
    }
    Some((low, high))
}

impl SoundRoi {
    fn border(self) -> usize
        ensures { result ≡ border_of self.context }
    {
        (self.context.ring + self.context.window + self.context.centroid_radius) as usize
    }

    // The box's radius around its centre.
    fn roi_radius(self) -> usize
        ensures { result ≡ roi_radius self.context }
    {
        let search = (self.context.search_radius << self.context.level) as usize;
        search.max(self.border() + 2)
    }

    // The box's ends on the axis of a side, for a seed's coordinate.
    fn span_on(self, side: usize, x: f32) -> Option<(usize, usize)>
        requires { side ≤ largest_side }
        ensures { result ≡ span_on self.context side x }
    {
        let scale = (1u32 << self.context.level) as f32;
        let float32::Rounded::Natural(c) = float32::round_half_away(x * scale) else {
            return None;
        };
        span_about(c, self.roi_radius(), self.border(), side)
    }

    // The box of a seed, if it has one.
    fn box_of(self, c: Corner) -> Option<Roi>
        ensures { result ≡ bounds (span_on self.context self.context.width c.x)
            (span_on self.context self.context.height c.y) }
    {
        let (x0, x1) = self.span_on(self.context.width, c.x)?;
        let (y0, y1) = self.span_on(self.context.height, c.y)?;
        Some(Roi { x0, y0, x1, y1 })
    }
}

impl RoiContext {
    fn parameters_fit(self) -> bool
        ensures { result ≡ parameters_fit self }
    {
        self.window <= lists::LARGEST_RADIUS
            && self.centroid_radius <= lists::LARGEST_RADIUS
            && self.search_radius <= lists::LARGEST_SEARCH
            && self.level <= lists::LAST_LEVEL
            && ring::is_ring(self.ring)
    }

    // Why a seed is refused.
    fn refusal(self, c: Corner) -> Result<(), Refusal>
        ensures { result ≡ verdict (refusal_of self c) }
    {
        if image_size::is_large(self.width, self.height) {
            return Err(Refusal::SideTooLarge);
        }
        if !self.parameters_fit() {
            return Err(Refusal::OutOfRange);
        }
        if !corner_list::is_inside(c) {
            return Err(Refusal::PositionOutside);
        }
        Ok(())
    }

    // The box of a seed, if it has one.
    pub fn compute_roi(self, c: Corner) -> Result<Option<Roi>, Refusal>
        ensures { Boxed self c result }
    {
        self.refusal(c)?;
        let sound = SoundRoi { context: self };
        Ok(sound.box_of(c))
    }
}
