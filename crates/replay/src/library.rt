// Kind 2: a frame of the library. The buffers are made one kind after the other, each with its lengths, and each is
// compared where it was made.
use crate::buffers::{due_bytes, due_floats, fill_bytes, front, past_buffer, read_floats};
use crate::fields::{
    BAD, and, bytes_at, count, due_answer, float, length_at, part, past, past_bytes, past_length,
    word,
};
use crate::list_buffer::{counts, due_list, floats, list_length, past_lengths, past_list};
use corner_list::CornerBuffer;
use frame_params::FrameParams;

// The longest map, and the longest level buffer.
const CELLS: usize = 8192;

const PIXELS: usize = 2048;

// With a map buffer and a level buffer.
pub(crate) fn replay(body: &[u8]) -> bool {
    let cells = past_bytes(body, 44);
    let places = past_length(body, cells, CELLS);
    let n = length_at(body, cells, CELLS);
    let m = length_at(body, places, PIXELS);
    let mut map = [0.0f32; CELLS];
    let mut levels = [0u8; PIXELS];
    read_floats(part(body, 0, 0), &mut map);
    fill_bytes(&mut levels);
    let next = with_seeds(
        body,
        past_length(body, places, PIXELS),
        &mut map[..n],
        &mut levels[..m],
    );
    are_maps_due(body, next, n, m, &map, &levels)
}

// Whether the first n places of the map and the first m of the level buffer hold what is expected.
fn are_maps_due(
    body: &[u8],
    at: usize,
    n: usize,
    m: usize,
    map: &[f32; CELLS],
    levels: &[u8; PIXELS],
) -> bool {
    let next = due_floats(body, at, part(body, 0, 0), front(map, n));
    due_bytes(body, next, part(levels, 0, m)) != BAD
}

// With a seed buffer too: the place of what is expected in the map, if this buffer holds what is expected in it.
fn with_seeds(body: &[u8], lengths: usize, map: &mut [f32], levels: &mut [u8]) -> usize {
    let nx = list_length(body, lengths, 0);
    let ny = list_length(body, lengths, 1);
    let ns = list_length(body, lengths, 2);
    let nn = list_length(body, lengths, 3);
    let mut xs = floats(body, BAD);
    let mut ys = floats(body, BAD);
    let mut strengths = floats(body, BAD);
    let mut neighbours = counts(body, BAD);
    let mut seeds = CornerBuffer {
        xs: &mut xs[..nx],
        ys: &mut ys[..ny],
        strengths: &mut strengths[..ns],
        neighbours: &mut neighbours[..nn],
    };
    let next = with_corners(body, past_lengths(body, lengths), map, levels, &mut seeds);
    let due = past_maps(body, next);
    let end = due_list(body, due, lengths, &xs, &ys, &strengths, &neighbours);
    and(next, end != BAD)
}

// With a corner buffer too, with which the body ends.
fn with_corners(
    body: &[u8],
    lengths: usize,
    map: &mut [f32],
    levels: &mut [u8],
    seeds: &mut CornerBuffer<'_>,
) -> usize {
    let nx = list_length(body, lengths, 0);
    let ny = list_length(body, lengths, 1);
    let ns = list_length(body, lengths, 2);
    let nn = list_length(body, lengths, 3);
    let mut xs = floats(body, BAD);
    let mut ys = floats(body, BAD);
    let mut strengths = floats(body, BAD);
    let mut neighbours = counts(body, BAD);
    let mut corners = CornerBuffer {
        xs: &mut xs[..nx],
        ys: &mut ys[..ny],
        strengths: &mut strengths[..ns],
        neighbours: &mut neighbours[..nn],
    };
    let answer = frame::find_corners(
        bytes_at(body, 44),
        count(body, 0),
        count(body, 1),
        parameters(body),
        false,
        map,
        levels,
        seeds,
        &mut corners,
    );
    let found = answer.map(|found| found.corners);
    let next = due_answer(body, past_lengths(body, lengths), found);
    let due = past_list(body, past_maps(body, next));
    let end = due_list(body, due, lengths, &xs, &ys, &strengths, &neighbours);
    and(next, end == body.len())
}

fn parameters(body: &[u8]) -> FrameParams {
    FrameParams {
        ring: word(body, 2),
        threshold: float(body, 3),
        window: word(body, 4),
        least_neighbours: word(body, 5),
        centroid_radius: word(body, 6),
        merge_radius: float(body, 7),
        levels: word(body, 8),
        minimum_side: count(body, 9),
        search_radius: word(body, 10),
    }
}

// Past what is expected in the map and in the level buffer.
fn past_maps(body: &[u8], at: usize) -> usize {
    let levels = past_buffer(body, at, CELLS);
    past_bytes(body, past(body, levels, 1))
}
