// How much of a stream must be read.
ghost use Rattle.std.specs.Prelude.{◌≡◌, drop};
ghost use Rattle.stream.specs.Wanted.{wanted_pixel_body, wanted_body, wanted_here};
ghost use Rattle.stream.specs.Wanted.{wanted as stream_wanted};

use crate::{judging, kinds, pixels};

// How many bytes of a body of kind 3 are needed if `came` has come.
fn wanted_pixels(came: &[u8], left: usize) -> usize
    ensures { result ≡ wanted_pixel_body left came.now }
{
    if pixels::padding_fault(came, left).is_err() {
        return 0;
    }
    let rest = 32_usize.saturating_sub(came.len());
    let pixels = left.saturating_sub(came.len());
    rest.min(pixels.saturating_add(1))
}

fn wanted_body(came: &[u8], due: u8, left: usize) -> usize
    ensures { result ≡ wanted_body due left came.now }
{
    if due == 3 {
        return wanted_pixels(came, left);
    }
    kinds::body_length(due).saturating_sub(came.len())
}

// How many bytes of the record at a place are needed, if it is faulty or cut short.
fn wanted_here(input: &[u8], at: usize, due: u8, left: usize) -> usize
    ensures { result ≡ wanted_here due left (drop at input.now) }
{
    if input.len() <= at {
        return 1;
    }
    if input[at] != due {
        return 0;
    }
    let start = at + 1;
    wanted_body(&input[start..], due, left)
}

// How many bytes must still arrive before the output can be decided; 0 once it is. A program that reads this many at a
// time reads no byte that is not needed.
pub fn wanted(input: &[u8]) -> usize
    ensures { result ≡ stream_wanted input.now }
{
    let stop = judging::judge(input);
    if stop.fault.is_ok() {
        return 0;
    }
    wanted_here(input, stop.at, stop.due, stop.left)
}
