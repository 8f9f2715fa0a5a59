// What a buffer holds before a call, and whether it holds afterwards what the sample expects. In names, `due` means
// expected.
use crate::fields::{
    and, byte_at, bytes_at, part, past, past_bytes, past_words, word_at, words_at,
};

// ---- before the call, by the sample's rules

// The number at place i: 1 to 100, over and over.
fn rule_count(i: usize) -> u32 {
    (1 + i % 100) as u32
}

// The bits of the float at place i, which is that number.
fn rule_bits(i: usize) -> u32 {
    float32::to_bits(((1 + i % 100) as u8) as f32)
}

// The byte at place i: 1 to 200, over and over.
fn rule_byte(i: usize) -> u8 {
    (1 + i % 200) as u8
}

// Fills a byte buffer by the rule.
pub(crate) fn fill_bytes(d: &mut [u8]) {
    for (i, byte) in d.iter_mut().enumerate() {
        *byte = rule_byte(i);
    }
}

// Word i of a field, or `other` if the field has fewer.
fn word_or(field: &[u8], i: usize, other: u32) -> u32 {
    if i < field.len() / 4 {
        return word_at(field, 4 * i);
    }
    other
}

// Fills a float buffer with the floats of a field, and by the rule after them.
pub(crate) fn read_floats(field: &[u8], d: &mut [f32]) {
    for (i, float) in d.iter_mut().enumerate() {
        *float = float32::from_bits(word_or(field, i, rule_bits(i)));
    }
}

// The same for a buffer of numbers.
pub(crate) fn read_counts(field: &[u8], d: &mut [u32]) {
    for (i, count) in d.iter_mut().enumerate() {
        *count = word_or(field, i, rule_count(i));
    }
}

// ---- after the call

// What is expected at place i: the field's word; after the field, 0 or, if the rest is kept, what was there before.
fn due_or(field: &[u8], is_kept: bool, i: usize, before: u32) -> u32 {
    if is_kept {
        return word_or(field, i, before);
    }
    word_or(field, i, 0)
}

// Whether a float buffer that was filled with the floats of `given` holds what is expected.
fn are_floats_due(field: &[u8], is_kept: bool, given: &[u8], after: &[f32]) -> bool {
    for (i, float) in after.iter().enumerate() {
        let before = word_or(given, i, rule_bits(i));
        if float32::to_bits(*float) != due_or(field, is_kept, i, before) {
            return false;
        }
    }
    true
}

// The same for a buffer of numbers.
fn are_counts_due(field: &[u8], is_kept: bool, given: &[u8], after: &[u32]) -> bool {
    for (i, count) in after.iter().enumerate() {
        let before = word_or(given, i, rule_count(i));
        if *count != due_or(field, is_kept, i, before) {
            return false;
        }
    }
    true
}

// The byte expected at place i of a byte buffer that was filled by the rule, likewise.
fn due_byte(field: &[u8], is_kept: bool, i: usize) -> u32 {
    if i < field.len() {
        return byte_at(field, i);
    }
    if is_kept {
        return rule_byte(i) as u32;
    }
    0
}

// Whether a byte buffer holds what is expected, and the field has no more.
fn are_bytes_due(field: &[u8], is_kept: bool, after: &[u8]) -> bool {
    for (i, byte) in after.iter().enumerate() {
        if u32::from(*byte) != due_byte(field, is_kept, i) {
            return false;
        }
    }
    field.len() <= after.len()
}

// Whether two slices hold the same bytes.
pub(crate) fn are_same(a: &[u8], b: &[u8]) -> bool {
    a == b
}

// Whether all bytes are 0.
pub(crate) fn are_zero(s: &[u8]) -> bool {
    s.iter().all(|byte| *byte == 0)
}

// ---- past what is expected in a buffer. Its first byte says what follows the field: 1 unchanged, 0 cleared.

// Past it, whatever it is; bad if it has more words than a limit.
pub(crate) fn past_buffer(body: &[u8], at: usize, limit: usize) -> usize {
    past_words(body, past(body, and(at, byte_at(body, at) <= 1), 1), limit)
}

// Its words.
fn buffer_at(body: &[u8], at: usize) -> &[u8] {
    words_at(body, past(body, at, 1))
}

// In a float buffer that was filled with the floats of a given field, and by the rule after them.
pub(crate) fn due_floats(body: &[u8], at: usize, given: &[u8], after: &[f32]) -> usize {
    let is_kept = byte_at(body, at) == 1;
    let is_due = are_floats_due(buffer_at(body, at), is_kept, given, after);
    and(past_buffer(body, at, after.len()), is_due)
}

// The same for a buffer of numbers.
pub(crate) fn due_counts(body: &[u8], at: usize, given: &[u8], after: &[u32]) -> usize {
    let is_kept = byte_at(body, at) == 1;
    let is_due = are_counts_due(buffer_at(body, at), is_kept, given, after);
    and(past_buffer(body, at, after.len()), is_due)
}

// In a byte buffer that was filled by the rule.
pub(crate) fn due_bytes(body: &[u8], at: usize, after: &[u8]) -> usize {
    let rest = byte_at(body, at);
    let bytes = past(body, and(at, rest <= 1), 1);
    let is_due = are_bytes_due(bytes_at(body, bytes), rest == 1, after);
    and(past_bytes(body, bytes), is_due)
}

// At the start of a byte buffer whose rest is kept: no byte says so.
pub(crate) fn due_front(body: &[u8], at: usize, after: &[u8]) -> usize {
    and(
        past_bytes(body, at),
        are_bytes_due(bytes_at(body, at), true, after),
    )
}

// The first n elements, or all if there are fewer.
pub(crate) fn front<T>(s: &[T], n: usize) -> &[T] {
    s.get(..n).unwrap_or(s)
}
