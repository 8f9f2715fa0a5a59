// The refusals of a frame before its pass. The frame pass over lists is defined in specs/, and proofs/ has what is true
// of it.
#![tactic(auto)]

ghost use Rattle.std.specs.Prelude.{◌≡◌};
ghost use Rattle.lists.specs.Refusals.{lowest, verdict};
ghost use Rattle.frame_pass.specs.Refusals.{conditions};

use frame_params::FrameParams;
use lists::Refusal;

// Why a frame is refused before the pass.
pub fn refusal(
    pixels: usize,
    w: usize,
    h: usize,
    p: FrameParams,
    cells: usize,
    places: usize,
) -> Result<(), Refusal>
    ensures { result ≡ verdict (lowest (conditions p pixels w h cells places)) }
{
    image_size::refusal(pixels, w, h)?;
    if !frame_params::parameters_fit(p) {
        return Err(Refusal::OutOfRange);
    }
    if merge_radius::is_outside(p.merge_radius) {
        return Err(Refusal::RadiusOutside);
    }
    if cells < w * h {
        return Err(Refusal::MapTooShort);
    }
    if places < pyramid_levels::cells_above(w, h, p.levels, p.minimum_side) {
        return Err(Refusal::LevelsTooShort);
    }
    Ok(())
}
