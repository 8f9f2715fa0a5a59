// Kind 5: the centroid of a seed.
use crate::buffers::read_floats;
use crate::fields::{
    byte_at, count_at, due_byte, due_float, due_word, float, length_at, past_words, word, words_at,
};
use center_of_mass::{CenterOfMassRefiner, Outcome};

// The longest map.
const CELLS: usize = 2048;

pub(crate) fn replay(body: &[u8]) -> bool {
    let n = length_at(body, 21, CELLS);
    let mut map = [0.0f32; CELLS];
    read_floats(words_at(body, 21), &mut map);
    is_due(body, refine(body, &map[0..n]))
}

// The outcome on a map for the seed in the body.
fn refine(body: &[u8], map: &[f32]) -> Outcome {
    let refiner = CenterOfMassRefiner {
        radius: word(body, 0),
    };
    refiner.refine(
        float(body, 1),
        float(body, 2),
        (byte_at(body, 12) == 1).then_some(map),
        count_at(body, 13),
        count_at(body, 17),
    )
}

fn is_due(body: &[u8], outcome: Outcome) -> bool {
    match outcome {
        Outcome::Accepted(x, y, mass) => are_due(body, 0, 1, x, y, mass),
        Outcome::Rejected(x, y) => are_due(body, 0, 2, x, y, 0.0),
        Outcome::OutOfBounds(x, y) => are_due(body, 0, 3, x, y, 0.0),
        Outcome::IllConditioned(x, y) => are_due(body, 0, 4, x, y, 0.0),
        Outcome::Refused(refusal) => are_due(body, u8::from(refusal), 0, 0.0, 0.0, 0.0),
    }
}

fn are_due(body: &[u8], refusal: u8, outcome: u8, x: f32, y: f32, mass: f32) -> bool {
    let at = past_words(body, 21, CELLS);
    let refused = due_word(body, at, refusal as u32);
    let place = due_float(body, due_byte(body, refused, outcome), x);
    due_float(body, due_float(body, place, y), mass) == body.len()
}
