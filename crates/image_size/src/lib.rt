// Conditions 1 and 2, which are checked first for every image and every map.
#![tactic(auto)]

ghost use Rattle.std.specs.Prelude.{◌≡◌};
ghost use Rattle.lists.specs.Refusals.{is_large, verdict};
ghost use Rattle.image_size.specs.ImageSize.{refusal_of};

use lists::Refusal;

// Whether a side is above the largest.
pub fn is_large(w: usize, h: usize) -> bool
    ensures { result ≡ is_large w h }
{
    lists::LARGEST_SIDE < w || lists::LARGEST_SIDE < h
}

// Why an image or a map of w by h with `size` elements is refused: for a side above the largest, or for a size that is
// not w * h. The product is computed only for sides up to the largest.
pub fn refusal(size: usize, w: usize, h: usize) -> Result<(), Refusal>
    ensures { result ≡ verdict (refusal_of size w h) }
{
    if is_large(w, h) {
        return Err(Refusal::SideTooLarge);
    }
    if size != w * h {
        return Err(Refusal::WrongLength);
    }
    Ok(())
}
