// Kind 3: the response of a box.
use crate::buffers::{due_floats, front, read_floats};
use crate::fields::{
    bytes_at, count, due_answer, due_count, length_at, part, past_bytes, past_length, word,
};
use lists::Refusal;
use response::Patch;

// The longest map.
const CELLS: usize = 1024;

pub(crate) fn replay(body: &[u8]) -> bool {
    let n = length_at(body, past_bytes(body, 28), CELLS);
    let mut map = filled(body);
    let answer = response::chess_response_u8_patch(
        bytes_at(body, 28),
        count(body, 0),
        count(body, 1),
        word(body, 2),
        count(body, 3),
        count(body, 4),
        count(body, 5),
        count(body, 6),
        &mut map[0..n],
    );
    is_due(body, n, answer, &map)
}

// A map, filled by the rule.
fn filled(body: &[u8]) -> [f32; CELLS] {
    let mut map = [0.0f32; CELLS];
    read_floats(part(body, 0, 0), &mut map);
    map
}

// Whether the answer and the first n places of the map are as expected.
fn is_due(body: &[u8], n: usize, answer: Result<Patch, Refusal>, map: &[f32; CELLS]) -> bool {
    let at = past_length(body, past_bytes(body, 28), CELLS);
    let next = due_patch(body, at, answer);
    due_floats(body, next, part(body, 0, 0), front(map, n)) == body.len()
}

fn due_patch(body: &[u8], at: usize, answer: Result<Patch, Refusal>) -> usize {
    let width = due_answer(body, at, answer.map(|patch| patch.w));
    due_count(body, width, answer.map(|patch| patch.h).unwrap_or(0))
}
