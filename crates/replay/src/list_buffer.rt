// A corner buffer: four slices, each the start of an array.
ghost use Rattle.std.specs.Prelude.{◌≤◌};

use crate::buffers::{due_counts, due_floats, front, past_buffer, read_counts, read_floats};
use crate::fields::{BAD, length_at, past, past_length, words_at};

// The most places that a slice has: as many as a listing has corners.
pub(crate) const LIST: usize = 512;

// ---- a slice, filled with the words at a place of the body, and by the rule after them; at BAD there are none

pub(crate) fn floats(body: &[u8], given: usize) -> [f32; LIST] {
    let mut d = [0.0f32; LIST];
    read_floats(words_at(body, given), &mut d);
    d
}

pub(crate) fn counts(body: &[u8], given: usize) -> [u32; LIST] {
    let mut d = [0u32; LIST];
    read_counts(words_at(body, given), &mut d);
    d
}

// Past what is expected in the first n places of such a slice.
pub(crate) fn due_slice(body: &[u8], at: usize, given: usize, n: usize, d: &[f32]) -> usize {
    due_floats(body, at, words_at(body, given), front(d, n))
}

pub(crate) fn due_neighbours(body: &[u8], at: usize, given: usize, n: usize, d: &[u32]) -> usize {
    due_counts(body, at, words_at(body, given), front(d, n))
}

// ---- four slices, filled by the rule: their lengths are at a place of the body

// The length of slice k.
pub(crate) fn list_length(body: &[u8], lengths: usize, k: u8) -> usize
    ensures { result ≤ 512 }
{
    length_at(body, past(body, lengths, 4 * (k as usize)), LIST)
}

// Past the lengths; bad if one is above LIST.
pub(crate) fn past_lengths(body: &[u8], lengths: usize) -> usize {
    let strengths = past_length(body, past_length(body, lengths, LIST), LIST);
    past_length(body, past_length(body, strengths, LIST), LIST)
}

// Past what is expected in slice k.
fn due_float_slice(body: &[u8], at: usize, lengths: usize, k: u8, d: &[f32]) -> usize {
    due_slice(body, at, BAD, list_length(body, lengths, k), d)
}

// Past what is expected in the slices.
pub(crate) fn due_list(
    body: &[u8],
    at: usize,
    lengths: usize,
    xs: &[f32; LIST],
    ys: &[f32; LIST],
    strengths: &[f32; LIST],
    neighbours: &[u32; LIST],
) -> usize {
    let x_end = due_float_slice(body, at, lengths, 0, xs);
    let y_end = due_float_slice(body, x_end, lengths, 1, ys);
    let end = due_float_slice(body, y_end, lengths, 2, strengths);
    due_neighbours(body, end, BAD, list_length(body, lengths, 3), neighbours)
}

// The same, whatever it is.
pub(crate) fn past_list(body: &[u8], at: usize) -> usize {
    let strengths = past_buffer(body, past_buffer(body, at, LIST), LIST);
    past_buffer(body, past_buffer(body, strengths, LIST), LIST)
}
