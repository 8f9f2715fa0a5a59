// Where the pixels of an uploaded photograph are.
ghost use Rattle.capi_formats.specs.Photo.{ImageRead};

// Reads the header of an upload: its pixels begin at `at`, `width` by `height` of them.
#[unsafe(no_mangle)]
pub extern "C" fn zakdomp_pgm(
    upload: &[u8],
    at: &mut usize,
    width: &mut usize,
    height: &mut usize,
) -> u8
    ensures { ImageRead upload.now at.old width.old
        height.old result at.new width.new height.new }
{
    match pgm::read_pgm(upload) {
        Ok(image) => {
            *at = image.at;
            *width = image.w;
            *height = image.h;
            0
        }
        Err(refusal) => u8::from(refusal),
    }
}
