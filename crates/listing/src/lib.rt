// The text of a corner list, and of a refusal.
#![tactic(auto)]

ghost use Rattle.std.specs.Prelude.{◌≡◌, [], ◌∷◌, ◌+◌, ◌*◌, ◌≤◌, ◌<◌, length};
ghost use Rattle.std.specs.Float.{binary32};
ghost use Rattle.std.specs.Float.Ieee.{to_bits};
ghost use Rattle.lists.specs.Buffer.{Written};
ghost use Rattle.corner_list.specs.CornerList.{corners_of};
ghost use Rattle.corner_list.specs.Buffer.{seen};
ghost use Rattle.listing.specs.Text.{digit_of, digits, places, decimal, hexadecimal, units_of, fields, line};
ghost use Rattle.listing.specs.Text.{heading, corners_text, refused_text};
ghost use Rattle.listing.specs.Internal.{longest, Wrote, ended};
ghost use Rattle.listing.specs.Answer.{most_corners, CornersWritten};

use corner_list::{Corner, CornerView};
use lists::Refusal;

// The most corners of a listing.
pub const MOST_CORNERS: usize = 512;

// The longest text: a heading of 12 bytes, and a line of 80 for each corner.
pub const LONGEST: usize = 12 + MOST_CORNERS * 80;

// ---- bytes one after the other

fn put(out: &mut [u8], at: usize, b: u8) -> usize
    requires { at < length out.old }
    ensures { Wrote (b ∷ []) at out.old result out.new }
{
    out[at] = b;
    at + 1
}

fn put_word(out: &mut [u8], at: usize, word: &[u8]) -> usize
    requires { at + length word.now ≤ length out.old }
    ensures { Wrote word.now at out.old result out.new }
{
    let end = at + word.len();
    out[at..end].copy_from_slice(word);
    end
}

// ---- numbers

// The character of a digit.
fn digit(d: usize) -> u8
    requires { d < 16 }
    ensures { result ≡ digit_of d }
{
    if d < 10 {
        b'0' + d as u8
    } else {
        b'a' + (d - 10) as u8
    }
}

// The last `count` digits of n in a base, from the lowest on. No method of std that has a contract writes digits to a
// buffer that is lent: the loop writes both bases in place.
fn put_digits(out: &mut [u8], at: usize, base: usize, count: usize, n: usize) -> usize
    requires { (0 < base) × (base ≤ 16) × (at + count ≤ length out.old) }
    ensures { Wrote (digits base count n) at out.old result out.new }
{
    let mut rest = n;
    for i in (0..count).rev() {
        out[at + i] = digit(rest % base);
        rest /= base;
    }
    at + count
}

// How many decimal digits n has.
fn decimal_places(n: usize) -> usize
    ensures { result ≡ places n n }
{
    match n.checked_ilog10() {
        Some(tens) => 1 + tens as usize,
        None => 1,
    }
}

// A number in decimal, and the byte that ends its column.
fn put_decimal(out: &mut [u8], at: usize, n: usize, end: u8) -> usize
    requires { at + places n n < length out.old }
    ensures { Wrote (ended (decimal n) end) at out.old result out.new }
{
    let count = decimal_places(n);
    let next = put_digits(out, at, 10, count, n);
    put(out, next, end)
}

// The bits of a float as eight digits, and the byte that ends its column.
fn put_bits(out: &mut [u8], at: usize, x: f32, end: u8) -> usize
    requires { at + 9 ≤ length out.old }
    ensures { Wrote (ended (hexadecimal (to_bits binary32 x)) end) at out.old result out.new }
{
    let bits = float32::to_bits(x) as usize;
    let next = put_digits(out, at, 16, 8, bits);
    put(out, next, end)
}

// ---- lines

// A coordinate in 256ths of a pixel, rounded to the nearest. The product is exact.
fn units(x: f32) -> usize
    ensures { result ≡ units_of x }
{
    let a = x * 256.0;
    let nearest = float32::round_half_away(a);
    match nearest {
        float32::Rounded::Natural(n) => n,
        float32::Rounded::Negative(_) => 0,
        float32::Rounded::Beyond => float32::cut_off(a),
    }
}

fn put_line(out: &mut [u8], at: usize, c: Corner) -> usize
    requires { at + 80 ≤ length out.old }
    ensures { Wrote (line (fields c)) at out.old result out.new }
{
    let behind_x = put_decimal(out, at, units(c.x), b' ');
    let behind_y = put_decimal(out, behind_x, units(c.y), b' ');
    let behind_x_bits = put_bits(out, behind_y, c.x, b' ');
    let behind_y_bits = put_bits(out, behind_x_bits, c.y, b' ');
    let behind_strength = put_bits(out, behind_y_bits, c.strength, b' ');
    put_decimal(out, behind_strength, c.neighbours as usize, b'\n')
}

// A word and a number.
fn put_heading(out: &mut [u8], word: &[u8], n: usize) -> usize
    requires { length word.now + 21 ≤ length out.old }
    ensures { Wrote (heading word.now n) 0 out.old result out.new }
{
    let at = put_word(out, 0, word);
    put_decimal(out, at, n, b'\n')
}

// ---- texts

fn put_corners(list: CornerView<'_>, count: usize, out: &mut [u8]) -> usize
    requires { (count ≤ most_corners) × (length out.old ≡ longest) }
    ensures { Wrote (corners_text (corners_of (seen list.entry) count)) 0 out.old result out.new }
{
    let mut at = put_heading(out, b"corners ", count);
    for i in 0..count {
        at = put_line(out, at, list.at(i));
    }
    at
}

// Writes the text of the first `count` corners of a buffer, which has that many places and no more than a listing has;
// the buffer `out` has a place for the longest text.
pub fn write_corners(
    list: CornerView<'_>,
    count: usize,
    out: &mut [u8; LONGEST],
) -> Result<usize, Refusal>
    ensures { CornersWritten (seen list.entry) count out.old result out.new }
{
    if list.places() < count || MOST_CORNERS < count {
        return Err(Refusal::ListTooLong);
    }
    Ok(put_corners(list, count, out))
}

// Writes the text of a refusal.
pub fn write_refusal(number: u8, out: &mut [u8; LONGEST]) -> usize
    ensures { Written (refused_text number) out.old result out.new }
{
    put_heading(out, b"refused ", usize::from(number))
}
