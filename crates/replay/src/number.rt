// Kinds 12 and 13: the functions of a float, and the ring of a radius.
use crate::fields::{and, due_byte, due_float, due_long, due_word, float, long_at, past, word};
use float32::Rounded;

// Of the roundings, only half away from zero is compared: floor and ceil have no function here.
pub(crate) fn replay_float(body: &[u8]) -> bool {
    let x = float(body, 0);
    let finite = due_float(body, 4, float32::abs(x));
    let lifted = due_byte(body, finite, float32::is_finite(x) as u8);
    let cut_off = due_float(body, lifted, float32::lifted(x));
    let floor = due_long(body, cut_off, float32::cut_off(x) as u64);
    due_round(body, past(body, floor, 16), x) == body.len()
}

fn due_round(body: &[u8], at: usize, x: f32) -> usize {
    and(past(body, at, 8), is_rounded(x, long_at(body, at)))
}

// Whether n is x rounded, as an i64. What is not rounded is not compared.
fn is_rounded(x: f32, n: u64) -> bool {
    match float32::round_half_away(x) {
        Rounded::Natural(k) => n == (k as u64),
        Rounded::Negative(k) => n == 0u64.wrapping_sub(k as u64),
        Rounded::Beyond => is_beyond(x),
    }
}

// Whether a float is not rounded: a NaN, or above 2^24 in absolute value.
fn is_beyond(x: f32) -> bool {
    !(float32::abs(x) <= float32::LARGEST_ROUNDED)
}

pub(crate) fn replay_ring(body: &[u8]) -> bool {
    let ring = ring::ring_offsets(word(body, 0));
    let columns = ring.columns;
    let rows = ring.rows;
    let at = due_word(body, 4, ring.radius);
    due_offsets(body, due_offsets(body, at, columns), rows) == body.len()
}

// A count, and that many offsets.
fn due_offsets(body: &[u8], at: usize, offsets: [u8; 16]) -> usize {
    let mut next = due_word(body, at, 16);
    for offset in offsets.iter() {
        next = due_word(body, next, u32::from(*offset));
    }
    next
}
