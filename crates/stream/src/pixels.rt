// The pixels: 32 in a record, and zeros after the last.
ghost use Rattle.std.specs.Prelude.{◌≡◌, ◌+◌, ◌*◌, ◌≤◌, length};
ghost use Rattle.lists.specs.Tab.{tab};
ghost use Rattle.lists.specs.Buffer.{front};
ghost use Rattle.lists.specs.Refusals.{verdict};
ghost use Rattle.stream.specs.Stream.{padding_fault, records_for};
ghost use Rattle.stream.specs.Internal.{pixel_count, pixel_byte};

use crate::fields;
use lists::Refusal;

pub(crate) fn pixel_count(input: &[u8]) -> usize
    requires { 5 ≤ length input.now }
    ensures { result ≡ pixel_count input.now }
{
    let sides = &input[1..5];
    usize::from(fields::u16_at(sides, 0)) * usize::from(fields::u16_at(sides, 2))
}

// The fault of a byte after the last pixel that is not 0.
pub(crate) fn padding_fault(body: &[u8], left: usize) -> Result<(), Refusal>
    ensures { result ≡ verdict (padding_fault left body.now) }
{
    if body.iter().skip(left).any(|v| *v != 0) {
        return Err(Refusal::CutShort);
    }
    Ok(())
}

// Stores the first n pixels: a byte with the kind comes before every 32.
pub(crate) fn store_pixels(input: &[u8], n: usize, pixels: &mut [u8])
    requires { (22 + 33 * records_for n ≤ length input.now) × (n ≤ length pixels.old) }
    ensures { pixels.new ≡ front (tab n (pixel_byte input.now)) pixels.old }
{
    for (i, pixel) in pixels[..n].iter_mut().enumerate() {
        *pixel = input[23 + i + i / 32];
    }
}
