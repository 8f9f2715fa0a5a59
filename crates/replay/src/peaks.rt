// Kind 4: the peaks of a map.
use crate::buffers::read_floats;
use crate::fields::{
    BAD, count, count_at, due_answer, float, length_at, past, past_words, word, words_at,
};
use crate::list_buffer::{counts, due_list, floats, list_length, past_lengths};
use corner_list::CornerBuffer;

// The longest map.
const CELLS: usize = 2048;

pub(crate) fn replay(body: &[u8]) -> bool {
    let n = length_at(body, 28, CELLS);
    let mut map = [0.0f32; CELLS];
    read_floats(words_at(body, 28), &mut map);
    with_list(body, past_words(body, 28, CELLS), &map[0..n])
}

// With a corner buffer: its lengths come next in the body, and after them how many corners it holds.
fn with_list(body: &[u8], lengths: usize, map: &[f32]) -> bool {
    let nx = list_length(body, lengths, 0);
    let ny = list_length(body, lengths, 1);
    let ns = list_length(body, lengths, 2);
    let nn = list_length(body, lengths, 3);
    let mut xs = floats(body, BAD);
    let mut ys = floats(body, BAD);
    let mut strengths = floats(body, BAD);
    let mut neighbours = counts(body, BAD);
    let held = past_lengths(body, lengths);
    let mut list = CornerBuffer {
        xs: &mut xs[..nx],
        ys: &mut ys[..ny],
        strengths: &mut strengths[..ns],
        neighbours: &mut neighbours[..nn],
    };
    let answer = detect::find_peaks(
        map,
        count(body, 0),
        count(body, 1),
        word(body, 2),
        float(body, 3),
        word(body, 4),
        word(body, 5),
        word(body, 6),
        false,
        &mut list,
        count_at(body, held),
    );
    let added = answer.map(|peaks| peaks.count);
    let next = due_answer(body, past(body, held, 4), added);
    due_list(body, next, lengths, &xs, &ys, &strengths, &neighbours) == body.len()
}
