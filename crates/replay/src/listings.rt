// Kind 11: the listing of a corner list.
use crate::buffers::{due_front, fill_bytes};
use crate::fields::{and, count_at, past_words};
use crate::list_buffer::{LIST, counts, floats};
use corner_list::CornerView;
use listing::LONGEST;
use lists::Refusal;

pub(crate) fn replay(body: &[u8]) -> bool {
    let ys = past_words(body, 0, LIST);
    let strengths = past_words(body, ys, LIST);
    let neighbours = past_words(body, strengths, LIST);
    is_due(body, ys, strengths, neighbours)
}

// Whether the text of the corners whose slices are at these places is as expected.
fn is_due(body: &[u8], ys: usize, strengths: usize, neighbours: usize) -> bool {
    let x = floats(body, 0);
    let y = floats(body, ys);
    let strength = floats(body, strengths);
    let neighbour = counts(body, neighbours);
    let mut text = [0u8; LONGEST];
    fill_bytes(&mut text);
    let list = CornerView {
        xs: &x,
        ys: &y,
        strengths: &strength,
        neighbours: &neighbour,
    };
    let answer = listing::write_corners(list, count_at(body, 0), &mut text);
    is_listing_due(body, past_words(body, neighbours, LIST), &text, answer)
}

// Whether the text of an answer is as expected.
fn is_listing_due(
    body: &[u8],
    at: usize,
    text: &[u8; LONGEST],
    answer: Result<usize, Refusal>,
) -> bool {
    let Ok(length) = answer else {
        return false;
    };
    is_text_due(body, at, text, length)
}

// Whether a text is the last one expected: the first n bytes of a buffer that was filled by the rule.
pub(crate) fn is_text_due(body: &[u8], at: usize, text: &[u8; LONGEST], n: usize) -> bool {
    due_front(body, and(at, count_at(body, at) == n), text) == body.len()
}
