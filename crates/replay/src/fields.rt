// A record's body, field by field from the start: little-endian numbers, bytes and floats. A place is where a field
// begins.
ghost use Rattle.std.specs.Prelude.{◌≤◌};

use lists::Refusal;

// The place after a field that is missing or differs from the answer: past the end of every body, and so is everything
// after it.
pub(crate) const BAD: usize = 18446744073709551615;

// ---- bytes of a slice: 0, or empty, if they are missing

fn wide(b: u8) -> u32
    ensures { result ≤ 255 }
{
    b as u32
}

pub(crate) fn byte_at(s: &[u8], at: usize) -> u32
    ensures { result ≤ 255 }
{
    if at < s.len() {
        return wide(s[at]);
    }
    0
}

pub(crate) fn word_at(s: &[u8], at: usize) -> u32 {
    if s.len() < 4 {
        return 0;
    }
    if s.len() - 4 < at {
        return 0;
    }
    let low = byte_at(s, at) + 256 * byte_at(s, at + 1);
    let high = byte_at(s, at + 2) + 256 * byte_at(s, at + 3);
    low + 65536 * high
}

// A side, a place or a count.
pub(crate) fn count_at(s: &[u8], at: usize) -> usize {
    word_at(s, at) as usize
}

pub(crate) fn part(s: &[u8], start: usize, length: usize) -> &[u8] {
    if start <= s.len() {
        if length <= s.len() - start {
            let end = start + length;
            return &s[start..end];
        }
    }
    &s[..0]
}

// ---- the numbers at the start of a body, by their order

pub(crate) fn word(body: &[u8], k: u8) -> u32 {
    word_at(body, 4 * (k as usize))
}

pub(crate) fn count(body: &[u8], k: u8) -> usize {
    word(body, k) as usize
}

pub(crate) fn float(body: &[u8], k: u8) -> f32 {
    float32::from_bits(word(body, k))
}

// ---- places

// Past n bytes; bad if the body has fewer.
pub(crate) fn past(body: &[u8], at: usize, n: usize) -> usize {
    if at <= body.len() {
        if n <= body.len() - at {
            return at + n;
        }
    }
    BAD
}

// The same place if `holds` is true, otherwise bad.
pub(crate) fn and(at: usize, holds: bool) -> usize {
    if holds {
        return at;
    }
    BAD
}

// ---- fields that are given

// A buffer's length, or a count of words, capped at a limit.
pub(crate) fn length_at(body: &[u8], at: usize, limit: usize) -> usize
    ensures { result ≤ limit }
{
    let n = count_at(body, at);
    if limit < n {
        return limit;
    }
    n
}

// Past such a length; bad if it is above the limit.
pub(crate) fn past_length(body: &[u8], at: usize, limit: usize) -> usize {
    and(past(body, at, 4), count_at(body, at) <= limit)
}

// The bytes after a count.
pub(crate) fn bytes_at(body: &[u8], at: usize) -> &[u8] {
    part(body, past(body, at, 4), count_at(body, at))
}

// Past a count, and that many bytes.
pub(crate) fn past_bytes(body: &[u8], at: usize) -> usize {
    past(body, past(body, at, 4), count_at(body, at))
}

// The bytes of the words after a count: floats, or numbers.
pub(crate) fn words_at(body: &[u8], at: usize) -> &[u8] {
    part(body, past(body, at, 4), 4 * (word_at(body, at) as usize))
}

// Past a count, and that many words; bad if there are more than a limit.
pub(crate) fn past_words(body: &[u8], at: usize, limit: usize) -> usize {
    past(
        body,
        past_length(body, at, limit),
        4 * (word_at(body, at) as usize),
    )
}

// ---- fields that are expected

pub(crate) fn due_byte(body: &[u8], at: usize, b: u8) -> usize {
    and(past(body, at, 1), byte_at(body, at) == (b as u32))
}

pub(crate) fn due_word(body: &[u8], at: usize, n: u32) -> usize {
    and(past(body, at, 4), word_at(body, at) == n)
}

pub(crate) fn due_count(body: &[u8], at: usize, n: usize) -> usize {
    and(past(body, at, 4), count_at(body, at) == n)
}

// A number of eight bytes.
pub(crate) fn long_at(body: &[u8], at: usize) -> u64 {
    let high = word_at(body, past(body, at, 4)) as u64;
    (word_at(body, at) as u64) + 4294967296 * high
}

pub(crate) fn due_long(body: &[u8], at: usize, n: u64) -> usize {
    and(past(body, at, 8), long_at(body, at) == n)
}

pub(crate) fn due_float(body: &[u8], at: usize, x: f32) -> usize {
    due_word(body, at, float32::to_bits(x))
}

// The number of a refusal, 0 for none, and a count, 0 if it is refused.
pub(crate) fn due_answer(body: &[u8], at: usize, answer: Result<usize, Refusal>) -> usize {
    let refused = due_word(body, at, u32::from(lists::number_of(answer)));
    due_count(body, refused, answer.unwrap_or(0))
}
