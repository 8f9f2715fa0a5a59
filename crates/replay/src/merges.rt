// Kind 9: a merge.
use crate::fields::{count, due_answer, float, length_at, past_words};
use crate::list_buffer::{LIST, counts, due_neighbours, due_slice, floats};
use corner_list::CornerBuffer;
use lists::Refusal;

pub(crate) fn replay(body: &[u8]) -> bool {
    let y_at = past_words(body, 8, LIST);
    let strength_at = past_words(body, y_at, LIST);
    let neighbours_at = past_words(body, strength_at, LIST);
    let nx = length_at(body, 8, LIST);
    let ny = length_at(body, y_at, LIST);
    let ns = length_at(body, strength_at, LIST);
    let nn = length_at(body, neighbours_at, LIST);
    let mut xs = floats(body, 8);
    let mut ys = floats(body, y_at);
    let mut strengths = floats(body, strength_at);
    let mut neighbours = counts(body, neighbours_at);
    let mut list = CornerBuffer {
        xs: &mut xs[..nx],
        ys: &mut ys[..ny],
        strengths: &mut strengths[..ns],
        neighbours: &mut neighbours[..nn],
    };
    let answer = merge::merge_corners_simple(&mut list, count(body, 1), float(body, 0));
    is_due(body, answer, &xs, &ys, &strengths, &neighbours)
}

// Whether the answer and the slices are as expected.
fn is_due(
    body: &[u8],
    answer: Result<usize, Refusal>,
    xs: &[f32; LIST],
    ys: &[f32; LIST],
    strengths: &[f32; LIST],
    neighbours: &[u32; LIST],
) -> bool {
    let y_at = past_words(body, 8, LIST);
    let strength_at = past_words(body, y_at, LIST);
    let neighbours_at = past_words(body, strength_at, LIST);
    let at = due_answer(body, past_words(body, neighbours_at, LIST), answer);
    let y_due = due_given(body, at, 8, xs);
    let strength_due = due_given(body, y_due, y_at, ys);
    let neighbours_due = due_given(body, strength_due, strength_at, strengths);
    let n = length_at(body, neighbours_at, LIST);
    due_neighbours(body, neighbours_due, neighbours_at, n, neighbours) == body.len()
}

// Past what is expected in a slice whose floats are at a place of the body.
fn due_given(body: &[u8], at: usize, given: usize, d: &[f32]) -> usize {
    due_slice(body, at, given, length_at(body, given, LIST), d)
}
