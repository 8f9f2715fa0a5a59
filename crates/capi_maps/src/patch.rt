// The responses of a box of an image.
ghost use Rattle.ring.specs.Ring.{ring_of};
ghost use Rattle.capi_maps.specs.Patch.{Responded};

// Writes the responses of the cells in columns x0 up to x1 and rows y0 up to y1 to the start of `map`, and the sides of
// that map to `width` and `height`. The box is clipped to the image.
#[unsafe(no_mangle)]
pub extern "C" fn zakdomp_response(
    img: &[u8],
    w: usize,
    h: usize,
    ring: u32,
    x0: usize,
    y0: usize,
    x1: usize,
    y1: usize,
    map: &mut [f32],
    width: &mut usize,
    height: &mut usize,
) -> u8
    ensures { Responded (record
        { img = img.now; w = w; h = h; ring = ring_of ring; x0 = x0; y0 = y0; x1 = x1; y1 = y1 }) ring
        map.old width.old height.old result map.new width.new
        height.new }
{
    match response::chess_response_u8_patch(img, w, h, ring, x0, y0, x1, y1, map) {
        Ok(patch) => {
            *width = patch.w;
            *height = patch.h;
            0
        }
        Err(refusal) => u8::from(refusal),
    }
}
