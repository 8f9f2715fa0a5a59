// The levels of an image pyramid: how many there are, how many pixels they have, and where each lies.
#![tactic(auto)]

mod count; // count.rt: which levels are built

ghost use Rattle.std.specs.Prelude.{◌≡◌};
ghost use Rattle.lists.specs.Refusals.{verdict};
ghost use Rattle.pyramid_levels.specs.Levels.{level_count, cells_above, capped};
ghost use Rattle.pyramid_levels.specs.Refusals.{ask, build_refusal_of, level_refusal_of};
ghost use Rattle.pyramid_levels.specs.Level.{LevelFound};

use lists::Refusal;

// Where a level begins, in the base or in the level buffer, and its sides.
#[derive(Clone, Copy)]
pub struct Level {
    pub from: usize,
    pub width: usize,
    pub height: usize,
}

// How many levels a pyramid over a base of these sides has: at most num_levels, the base included, and none with a side
// below min_size.
pub fn level_count(width: usize, height: usize, num_levels: u32, min_size: usize) -> usize
    ensures { result ≡ level_count width height num_levels min_size }
{
    let most = num_levels as usize;
    if most == 0 || count::is_below(width, height, min_size) {
        return 0;
    }
    let mut w = width;
    let mut h = height;
    for n in 1..most {
        w /= 2;
        h /= 2;
        if count::is_too_small(w, h, min_size) {
            return n;
        }
    }
    most
}

// How many pixels levels 1 .. n - 1 have, after which level n begins; the largest usize if there are more. Above a
// level without pixels no level has any, so at most 64 are looked at.
pub fn cells_before(width: usize, height: usize, n: usize) -> usize
    ensures { result ≡ capped (cells_above width height n) }
{
    let mut w = width;
    let mut h = height;
    let mut sum = 0usize;
    for _k in 1..n {
        w /= 2;
        h /= 2;
        let cells = w.saturating_mul(h);
        if cells == 0 {
            return sum;
        }
        sum = sum.saturating_add(cells);
    }
    sum
}

// How many pixels the levels above the base have: the size that the level buffer needs; the largest usize if there are
// more.
pub fn cells_above(width: usize, height: usize, num_levels: u32, min_size: usize) -> usize
    ensures { result ≡ capped (cells_above width height (level_count width height num_levels min_size)) }
{
    cells_before(
        width,
        height,
        level_count(width, height, num_levels, min_size),
    )
}

// Why no pyramid is built over a base of `pixels` pixels in a level buffer of `places` places.
pub fn build_refusal(
    pixels: usize,
    places: usize,
    width: usize,
    height: usize,
    num_levels: u32,
    min_size: usize,
) -> Result<(), Refusal>
    ensures { result ≡ verdict (build_refusal_of (ask pixels places width height num_levels min_size)) }
{
    image_size::refusal(pixels, width, height)?;
    if places < cells_above(width, height, num_levels, min_size) {
        return Err(Refusal::LevelsTooShort);
    }
    Ok(())
}

// Why level k over such a base is refused.
pub fn level_refusal(
    pixels: usize,
    places: usize,
    width: usize,
    height: usize,
    num_levels: u32,
    min_size: usize,
    k: usize,
) -> Result<(), Refusal>
    ensures { result ≡ verdict (level_refusal_of (ask pixels places width height num_levels min_size) k) }
{
    if k < level_count(width, height, num_levels, min_size) {
        return build_refusal(pixels, places, width, height, num_levels, min_size);
    }
    image_size::refusal(pixels, width, height)?;
    Err(Refusal::OutOfRange)
}

// Where level k lies and its sides, for a base of `pixels` pixels and a level buffer of `places` places.
pub fn level_at(
    pixels: usize,
    places: usize,
    width: usize,
    height: usize,
    num_levels: u32,
    min_size: usize,
    k: usize,
) -> Result<Level, Refusal>
    ensures { LevelFound (ask pixels places width height num_levels min_size) k result }
{
    level_refusal(pixels, places, width, height, num_levels, min_size, k)?;
    Ok(Level {
        from: cells_before(width, height, k),
        width: width >> k,
        height: height >> k,
    })
}
