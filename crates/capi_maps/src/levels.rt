// The half-size levels of an image.
ghost use Rattle.std.specs.Prelude.{◌≡◌};
ghost use Rattle.pyramid_levels.specs.Levels.{level_count, cells_above, capped};
ghost use Rattle.capi_maps.specs.Levels.{LevelsBuilt};

// How many bytes the level buffer of such an image needs; the largest number if it needs more.
#[unsafe(no_mangle)]
pub extern "C" fn zakdomp_level_bytes(w: usize, h: usize, count: u32, minimum_side: usize) -> usize
    ensures { result ≡ capped (cells_above w h (level_count w h count minimum_side)) }
{
    pyramid_levels::cells_above(w, h, count, minimum_side)
}

// Writes the levels above an image to the start of `levels`. `built` gets the number of levels, the image included.
#[unsafe(no_mangle)]
pub extern "C" fn zakdomp_levels(
    img: &[u8],
    w: usize,
    h: usize,
    count: u32,
    minimum_side: usize,
    levels: &mut [u8],
    built: &mut usize,
) -> u8
    ensures { LevelsBuilt img.now w h count minimum_side levels.old built.old
        result levels.new built.new }
{
    let a = pyramid::build_pyramid(img, w, h, count, minimum_side, levels);
    *built = a.unwrap_or(*built);
    lists::number_of(a)
}
