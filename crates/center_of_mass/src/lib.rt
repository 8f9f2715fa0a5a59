// The centre of mass of a response map around a seed.
#![tactic(auto)]

ghost use Rattle.std.specs.Prelude.{◌≡◌, ◌+◌, ◌*◌, ◌≤◌, ◌<◌, length, is_some, option_copied};
ghost use Rattle.lists.specs.Limits.{largest_side, largest_radius};
ghost use Rattle.lists.specs.Places.{row, block};
ghost use Rattle.center_of_mass.specs.CenterOfMass.{no_sums, with_cells, seed_fits, refusal_of, centre_on, outcome_of};
ghost use Rattle.lists.specs.Refusals.{verdict};
ghost use Rattle.center_of_mass.specs.Promise.{Refined, cells_of};

use lists::Refusal;

#[derive(Clone, Copy)]
pub struct CenterOfMassRefiner {
    pub radius: u32,
}

// The floats are the centre of mass and the mass, or the seed unchanged. `Refused` says why the call is refused.
// This is no Result: the five cases are those of the rules.
#[derive(Clone, Copy)]
pub enum Outcome {
    Accepted(f32, f32, f32),
    Rejected(f32, f32),
    OutOfBounds(f32, f32),
    IllConditioned(f32, f32),
    Refused(Refusal),
}

// The sums over some cells: column times weight, row times weight, weight.
#[derive(Clone, Copy)]
struct Sums {
    sx: f32,
    sy: f32,
    sw: f32,
}

// The sums s plus the cells of row y from column x0 up to, not including, column x1, of a map w wide.
fn row_sums(map: &[f32], w: usize, x0: usize, x1: usize, y: usize, mut s: Sums) -> Sums
    requires { (x1 ≤ w) × (w ≤ largest_side) × (y ≤ largest_side) × (y * w + w ≤ length map.now) }
    ensures { result ≡ with_cells map.now w s (row y x0 x1) }
{
    for x in x0..x1 {
        let weight = float32::lifted(map[y * w + x]);
        s.sx += x as f32 * weight;
        s.sy += y as f32 * weight;
        s.sw += weight;
    }
    s
}

// The sums over columns x0 to x1 and rows y0 to y1, without x1 and y1, row by row.
fn window_sums(map: &[f32], w: usize, x0: usize, x1: usize, y0: usize, y1: usize) -> Sums
    requires { (x1 ≤ w) × (w ≤ largest_side) × (y1 ≤ largest_side) × (y1 * w ≤ length map.now) }
    ensures { result ≡ with_cells map.now w no_sums (block x0 x1 y0 y1) }
{
    let mut s = Sums {
        sx: 0.0,
        sy: 0.0,
        sw: 0.0,
    };
    for y in y0..y1 {
        s = row_sums(map, w, x0, x1, y, s);
    }
    s
}

// How far a seed may be from 0, either way.
const FURTHEST_SEED: f32 = 1000000.0;

fn seed_fits(x: f32) -> bool
    ensures { result ≡ seed_fits x }
{
    float32::abs(x) <= FURTHEST_SEED
}

// Why a call is refused.
fn refusal(
    radius: u32,
    x: f32,
    y: f32,
    map: Option<&[f32]>,
    w: usize,
    h: usize,
) -> Result<(), Refusal>
    ensures { result ≡ verdict (refusal_of radius x y (is_some map.entry)
        (length (cells_of (option_copied map.entry))) w h) }
{
    if let Some(cells) = map {
        image_size::refusal(cells.len(), w, h)?;
    }
    if lists::LARGEST_RADIUS < radius {
        return Err(Refusal::OutOfRange);
    }
    if seed_fits(x) && seed_fits(y) {
        return Ok(());
    }
    Err(Refusal::PositionOutside)
}

// The window's centre on one axis, if the whole window lies within the side.
fn centre_on(x: f32, r: usize, side: usize) -> Option<usize>
    ensures { result ≡ centre_on r side x }
{
    let nearest = float32::round_half_away(x);
    let float32::Rounded::Natural(p) = nearest else {
        return None;
    };
    if p < r || side <= p || side - p <= r {
        return None;
    }
    Some(p)
}

// The outcome if nothing is refused and a map is given.
fn centre_of_mass(r: usize, x: f32, y: f32, map: &[f32], w: usize, h: usize) -> Outcome
    requires { (r ≤ largest_radius) × (w ≤ largest_side) × (h ≤ largest_side) × (length map.now ≡ w * h) }
    ensures { result ≡ outcome_of r x y map.now w h }
{
    let Some(cx) = centre_on(x, r, w) else {
        return Outcome::OutOfBounds(x, y);
    };
    let Some(cy) = centre_on(y, r, h) else {
        return Outcome::OutOfBounds(x, y);
    };
    let s = window_sums(map, w, cx - r, cx + r + 1, cy - r, cy + r + 1);
    if 0.0 < s.sw {
        return Outcome::Accepted(s.sx / s.sw, s.sy / s.sw, s.sw);
    }
    Outcome::IllConditioned(x, y)
}

impl CenterOfMassRefiner {
    // The outcome around a seed, in a response map w wide and h high, in row order, if there is one.
    pub fn refine(self, x: f32, y: f32, map: Option<&[f32]>, w: usize, h: usize) -> Outcome
        ensures { Refined self.radius x y (is_some map.entry) (cells_of (option_copied map.entry)) w h result }
    {
        if let Err(reason) = refusal(self.radius, x, y, map, w, h) {
            return Outcome::Refused(reason);
        }
        let Some(cells) = map else {
            return Outcome::Rejected(x, y);
        };
        centre_of_mass(self.radius as usize, x, y, cells, w, h)
    }
}
