// Binary PGM photographs: where the pixels of an upload are, and its sides.
#![tactic(auto)]

mod header; // header.rt: the fields of a header

ghost use Rattle.std.specs.Prelude.{◌≡◌};
ghost use Rattle.pgm.specs.Pgm.{pixels_in, PgmRead};

use lists::Refusal;

// Where the pixels begin in the upload, and both sides.
#[derive(Clone, Copy)]
pub struct PgmImage {
    pub at: usize,
    pub w: usize,
    pub h: usize,
}

// Reads the header of an upload.
pub fn read_pgm(upload: &[u8]) -> Result<PgmImage, Refusal>
    ensures { PgmRead upload.now result }
{
    let Some(sides) = header::read_sides(upload) else {
        return Err(Refusal::HeaderUnread);
    };
    if image_size::is_large(sides.w, sides.h) {
        return Err(Refusal::SideTooLarge);
    }
    let Some(maxval) = header::read_maxval(upload, sides.end) else {
        return Err(Refusal::HeaderUnread);
    };
    if upload.len() - maxval.end < sides.w * sides.h {
        return Err(Refusal::HeaderUnread);
    }
    if maxval.value != 255 {
        return Err(Refusal::WrongMaxval);
    }
    Ok(PgmImage {
        at: maxval.end,
        w: sides.w,
        h: sides.h,
    })
}

// The pixels of an upload: a part of it, empty if it is refused.
pub fn pgm_pixels<'a>(upload: &'a [u8]) -> &'a [u8]
    ensures { result.now ≡ pixels_in upload.now }
{
    let Ok(image) = read_pgm(upload) else {
        return &upload[..0];
    };
    let end = image.at + image.w * image.h;
    &upload[image.at..end]
}
