// The centre of mass of a map around a seed.
ghost use Rattle.std.specs.Prelude.{◌≡◌};
ghost use Rattle.center_of_mass.specs.CenterOfMass.{number_of};
ghost use Rattle.capi_peaks.specs.Centroid.{seed, three, Located};
ghost use Rattle.capi_peaks.specs.Internal.{located};

use center_of_mass::{CenterOfMassRefiner, Outcome};

// A seed or its centre of mass, and the mass, which is 0 if the seed did not move.
#[derive(Clone, Copy)]
struct Seed {
    x: f32,
    y: f32,
    mass: f32,
}

// The number of an outcome, 0 if there is no refusal.
fn number_of(o: Outcome) -> u8
    ensures { result ≡ number_of o }
{
    match o {
        Outcome::Accepted(_, _, _) => 0,
        Outcome::Rejected(_, _) => 0,
        Outcome::OutOfBounds(_, _) => 0,
        Outcome::IllConditioned(_, _) => 0,
        Outcome::Refused(refusal) => u8::from(refusal),
    }
}

// The place and the mass of an outcome, or `before` if refused.
fn values_of(o: Outcome, before: Seed) -> Seed
    ensures { three result ≡ located o (three before) }
{
    match o {
        Outcome::Accepted(x, y, mass) => Seed { x, y, mass },
        Outcome::Rejected(x, y) => Seed { x, y, mass: 0.0 },
        Outcome::OutOfBounds(x, y) => Seed { x, y, mass: 0.0 },
        Outcome::IllConditioned(x, y) => Seed { x, y, mass: 0.0 },
        Outcome::Refused(_) => before,
    }
}

// Moves the seed (x, y) to the centre of mass of the cells around it. `mass` gets their mass, or 0 if the seed stays.
#[unsafe(no_mangle)]
pub extern "C" fn zakdomp_centroid(
    map: &[f32],
    w: usize,
    h: usize,
    radius: u32,
    x: &mut f32,
    y: &mut f32,
    mass: &mut f32,
) -> u8
    ensures { Located radius map.now w h (seed x.old y.old mass.old)
        result (three (seed x.new y.new mass.new)) }
{
    let before = Seed {
        x: *x,
        y: *y,
        mass: *mass,
    };
    let refiner = CenterOfMassRefiner { radius };
    let o = refiner.refine(before.x, before.y, Some(map), w, h);
    let c = values_of(o, before);
    *x = c.x;
    *y = c.y;
    *mass = c.mass;
    number_of(o)
}
