// Kind 10: the reader of a stream.
use crate::buffers::{are_zero, due_front, fill_bytes};
use crate::fields::{and, bytes_at, due_count, due_word, part, past, past_bytes};
use lists::Refusal;
use stream::Header;

pub(crate) fn replay(body: &[u8]) -> bool {
    let mut pixels = [0u8; stream::MOST_PIXELS];
    fill_bytes(&mut pixels);
    let answer = stream::read_frame(bytes_at(body, 0), &mut pixels);
    are_pixels_due(body, due_frame(body, answer), &pixels)
}

fn are_pixels_due(body: &[u8], at: usize, pixels: &[u8; stream::MOST_PIXELS]) -> bool {
    due_front(body, at, pixels) == body.len()
}

fn due_frame(body: &[u8], answer: Result<Header, Refusal>) -> usize {
    match answer {
        Ok(header) => due_header(body, header),
        Err(refusal) => due_refusal(body, refusal),
    }
}

// A refusal's number, and 0 for each field of a header.
fn due_refusal(body: &[u8], refusal: Refusal) -> usize {
    let at = due_word(body, past_bytes(body, 0), u32::from(u8::from(refusal)));
    and(past(body, at, 44), are_zero(part(body, at, 44)))
}

fn due_header(body: &[u8], h: Header) -> usize {
    let at = due_word(body, past_bytes(body, 0), 0);
    let sides = due_count(body, due_count(body, at, h.width), h.height);
    let threshold = due_word(body, due_word(body, sides, h.ring), h.threshold_bits);
    due_parameters(body, due_word(body, threshold, h.window), h)
}

// The last six parameters.
fn due_parameters(body: &[u8], at: usize, h: Header) -> usize {
    let centroid_radius = due_word(
        body,
        due_word(body, at, h.least_neighbours),
        h.centroid_radius,
    );
    let levels = due_word(
        body,
        due_word(body, centroid_radius, h.merge_bits),
        h.levels,
    );
    due_word(
        body,
        due_count(body, levels, h.minimum_side),
        h.search_radius,
    )
}
