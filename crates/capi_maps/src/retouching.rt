// A pixel of an image changed, and its map updated.
ghost use Rattle.capi_maps.specs.Retouching.{PixelRetouched};

// Changes the pixel (x, y) of an image to `value` and computes the cells of its map that depend on this pixel again.
// `redone` gets their number.
#[unsafe(no_mangle)]
pub extern "C" fn zakdomp_retouch(
    img: &mut [u8],
    w: usize,
    h: usize,
    ring: u32,
    map: &mut [f32],
    x: usize,
    y: usize,
    value: u8,
    redone: &mut usize,
) -> u8
    ensures { PixelRetouched w h ring (record { x = x; y = y }) value img.old
        map.old redone.old
        result img.new map.new redone.new }
{
    let a = retouch::retouch(img, w, h, ring, map, x, y, value);
    *redone = a.unwrap_or(*redone);
    lists::number_of(a)
}
