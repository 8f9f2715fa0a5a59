// Which levels are built, by their sides.
ghost use Rattle.std.specs.Prelude.{◌≡◌};
ghost use Rattle.pyramid_levels.specs.Levels.{is_below, is_too_small};

// Whether a side is below the minimum size.
pub(crate) fn is_below(w: usize, h: usize, minimum_side: usize) -> bool
    ensures { result ≡ is_below w h minimum_side }
{
    w < minimum_side || h < minimum_side
}

// Whether a new level of w by h is not built.
pub(crate) fn is_too_small(w: usize, h: usize, minimum_side: usize) -> bool
    ensures { result ≡ is_too_small w h minimum_side }
{
    w == 0 || h == 0 || is_below(w, h, minimum_side)
}
