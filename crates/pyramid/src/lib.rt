// The box-filter image pyramid: builds the levels above the base in a buffer, one after the other, and returns one of
// them.
#![tactic(auto)]

mod halve; // halve.rt: the levels themselves

ghost use Rattle.std.specs.Prelude.{◌≡◌};
ghost use Rattle.pyramid.specs.Build.{Built};
ghost use Rattle.pyramid.specs.Level.{level_in};

use lists::Refusal;
use pyramid_levels::{build_refusal, cells_before, level_count, level_refusal};

// Writes the levels above the base to the level buffer, one after the other, and returns how many levels the pyramid
// has. The rest of the buffer stays, and a refusal leaves all of it unchanged.
pub fn build_pyramid(
    base: &[u8],
    width: usize,
    height: usize,
    num_levels: u32,
    min_size: usize,
    levels: &mut [u8],
) -> Result<usize, Refusal>
    ensures { Built base.now width height num_levels min_size levels.old result
        levels.new }
{
    build_refusal(
        base.len(),
        levels.len(),
        width,
        height,
        num_levels,
        min_size,
    )?;
    let n = level_count(width, height, num_levels, min_size);
    halve::fill_levels(base, width, height, n, levels);
    Ok(n)
}

// Level k: the base or a part of the level buffer, empty if it is refused.
pub fn level<'a>(
    base: &'a [u8],
    levels: &'a [u8],
    width: usize,
    height: usize,
    num_levels: u32,
    min_size: usize,
    k: usize,
) -> &'a [u8]
    ensures { result.now ≡ level_in base.now
        levels.now width height num_levels min_size k }
{
    let checked = level_refusal(
        base.len(),
        levels.len(),
        width,
        height,
        num_levels,
        min_size,
        k,
    );
    let Ok(()) = checked else {
        return &base[..0];
    };
    if k == 0 {
        return base;
    }
    let from = cells_before(width, height, k);
    let end = cells_before(width, height, k + 1);
    &levels[from..end]
}
