// The header of a PGM photograph, scanned from place to place. A place where no comment begins stands for the
// characters from there on.
ghost use Rattle.std.specs.Prelude.{◌≡◌, ◌<◌, true, length};
ghost use Rattle.pgm.specs.Header.{is_space, in_comment, begins, trailing, field_of, has_magic};
ghost use Rattle.pgm.specs.Internal.{bare_from, Plain, Reaches, CommentsSkipped, DigitRead, NumberRead};
ghost use Rattle.pgm.specs.Internal.{FieldRead, SidesRead, MaxvalRead, behind_sides};

// A number up to 65,536, and the place after its last digit.
#[derive(Clone, Copy)]
pub(crate) struct Number {
    pub value: usize,
    pub end: usize,
}

// Both sides up to 65,536, and the place after the height's last digit.
#[derive(Clone, Copy)]
pub(crate) struct Sides {
    pub w: usize,
    pub h: usize,
    pub end: usize,
}

// ---- characters

fn is_space(c: u8) -> bool
    ensures { result ≡ is_space c }
{
    matches!(c, b' ' | b'\t'..=b'\r')
}

// Whether a comment goes on after a byte.
fn goes_on(inside: bool, c: u8) -> bool
    ensures { result ≡ in_comment inside c }
{
    if inside {
        !matches!(c, b'\r' | b'\n')
    } else {
        c == b'#'
    }
}

// ---- places

// The place after the comments that begin at a place.
fn skip_comments(upload: &[u8], from: usize) -> usize
    ensures { CommentsSkipped upload.now from result }
{
    let mut inside = false;
    for at in from..upload.len() {
        let c = upload[at];
        if !inside && c != b'#' {
            return at;
        }
        inside = goes_on(inside, c);
    }
    from.max(upload.len())
}

// Whether there is a whitespace character at a place.
fn begins_space(upload: &[u8], at: usize) -> bool
    requires { Plain upload.now at }
    ensures value { result ≡ begins is_space (bare_from upload.now at) }
    ensures inside { result ≡ true → at < length upload.now }
{
    at < upload.len() && is_space(upload[at])
}

// The place after the whitespace at a place.
fn skip_space(upload: &[u8], from: usize) -> usize
    requires { Plain upload.now from }
    ensures { Reaches upload.now (trailing is_space (bare_from upload.now from)) result }
{
    let mut at = from;
    // A `while`: the step also passes the comments behind the character.
    while begins_space(upload, at) {
        at = skip_comments(upload, at + 1);
    }
    at
}

// ---- numbers

// The largest number that is kept: a larger one is kept as this.
const LARGEST_KEPT: usize = 65536;

// The digit at a place, if there is one.
fn digit_at(upload: &[u8], at: usize) -> Option<usize>
    requires { Plain upload.now at }
    ensures { DigitRead upload.now at result }
{
    if at < upload.len() && upload[at].is_ascii_digit() {
        Some(usize::from(upload[at] - b'0'))
    } else {
        None
    }
}

// The number at a place, if a digit is there.
fn read_number(upload: &[u8], from: usize) -> Option<Number>
    requires { Plain upload.now from }
    ensures { NumberRead upload.now (bare_from upload.now from) result }
{
    let mut value = digit_at(upload, from)?;
    let mut end = skip_comments(upload, from + 1);
    // A `while`: the step also passes the comments behind a digit.
    while let Some(digit) = digit_at(upload, end) {
        value = LARGEST_KEPT.min(10 * value + digit);
        end = skip_comments(upload, end + 1);
    }
    Some(Number { value, end })
}

// The number behind the whitespace at a place, if both are there.
fn read_field(upload: &[u8], from: usize) -> Option<Number>
    requires { Plain upload.now from }
    ensures { FieldRead upload.now (field_of (bare_from upload.now from)) result }
{
    if !begins_space(upload, from) {
        return None;
    }
    read_number(upload, skip_space(upload, from))
}

// ---- the header

// Whether the first two bytes are the magic number.
fn has_magic(upload: &[u8]) -> bool
    ensures { result ≡ has_magic upload.now }
{
    upload.starts_with(b"P5")
}

// Both sides, if they can be read behind the magic number.
pub(crate) fn read_sides(upload: &[u8]) -> Option<Sides>
    ensures { SidesRead upload.now result }
{
    if !has_magic(upload) {
        return None;
    }
    let width = read_field(upload, skip_comments(upload, 2))?;
    let height = read_field(upload, width.end)?;
    Some(Sides {
        w: width.value,
        h: height.value,
        end: height.end,
    })
}

// The maxval behind the sides, and the place after the one whitespace character that follows it, if both are there.
pub(crate) fn read_maxval(upload: &[u8], from: usize) -> Option<Number>
    requires { Reaches upload.now (behind_sides upload.now) from }
    ensures { MaxvalRead upload.now result }
{
    let maxval = read_field(upload, from)?;
    if !begins_space(upload, maxval.end) {
        return None;
    }
    Some(Number {
        value: maxval.value,
        end: maxval.end + 1,
    })
}
