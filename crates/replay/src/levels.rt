// Kinds 7 and 8: the levels of a pyramid, and where one of them lies.
use crate::buffers::{are_same, due_bytes, fill_bytes};
use crate::fields::{
    bytes_at, count, due_answer, due_byte, due_count, due_word, length_at, part, past_bytes,
    past_length, word,
};
use lists::Refusal;
use pyramid_levels::Level;

// The longest base whose levels are looked up, and the longest level buffer.
const PIXELS: usize = 40000;

const PLACES: usize = 16384;

// A level buffer, filled by the rule.
fn filled() -> [u8; PLACES] {
    let mut levels = [0u8; PLACES];
    fill_bytes(&mut levels);
    levels
}

// ---- kind 7

pub(crate) fn replay_building(body: &[u8]) -> bool {
    let n = length_at(body, past_bytes(body, 16), PLACES);
    let mut levels = filled();
    let answer = pyramid::build_pyramid(
        bytes_at(body, 16),
        count(body, 0),
        count(body, 1),
        word(body, 2),
        count(body, 3),
        &mut levels[0..n],
    );
    is_due(body, n, answer, &levels)
}

// Whether the answer and the first n places of the level buffer are as expected.
fn is_due(body: &[u8], n: usize, answer: Result<usize, Refusal>, levels: &[u8; PLACES]) -> bool {
    let at = past_length(body, past_bytes(body, 16), PLACES);
    due_bytes(body, due_answer(body, at, answer), part(levels, 0, n)) == body.len()
}

// ---- kind 8: the base's sides, the level count, the minimum size, the level's number, and the lengths of base and
// level buffer

pub(crate) fn replay_place(body: &[u8]) -> bool {
    let nowhere = Level {
        from: 0,
        width: 0,
        height: 0,
    };
    match place(body) {
        Ok(level) => is_place_due(body, 0, source(body), level),
        Err(refusal) => is_place_due(body, u8::from(refusal), 0, nowhere),
    }
}

// 0 for the base, and 1 for the level buffer.
fn source(body: &[u8]) -> u8 {
    if count(body, 4) == 0 {
        return 0;
    }
    1
}

fn is_place_due(body: &[u8], refusal: u8, source: u8, level: Level) -> bool {
    if !lies(body, level) {
        return false;
    }
    let refused = due_word(body, due_built(body), u32::from(refusal));
    let place = due_count(body, due_byte(body, refused, source), level.from);
    due_count(body, due_count(body, place, level.width), level.height) == body.len()
}

// Past the two lengths, and the expected number of levels.
fn due_built(body: &[u8]) -> usize {
    let at = past_length(body, past_length(body, 20, PIXELS), PLACES);
    due_count(body, at, built(body))
}

// How many levels there are; 0 if a side is above the largest.
fn built(body: &[u8]) -> usize {
    let width = count(body, 0);
    let height = count(body, 1);
    if lists::LARGEST_SIDE < width || lists::LARGEST_SIDE < height {
        return 0;
    }
    pyramid_levels::level_count(width, height, word(body, 2), count(body, 3))
}

// Where the level is, for a base and a level buffer of these lengths.
fn place(body: &[u8]) -> Result<Level, Refusal> {
    pyramid_levels::level_at(
        count(body, 5),
        count(body, 6),
        count(body, 0),
        count(body, 1),
        word(body, 2),
        count(body, 3),
        count(body, 4),
    )
}

// Whether the level is the w by h bytes from a place of its source on. Here the base is 0, and the level buffer is
// filled by the rule, which gives no 0: so a level's bytes show where they are.
fn lies(body: &[u8], level: Level) -> bool {
    let pixels = length_at(body, 20, PIXELS);
    let places = length_at(body, 24, PLACES);
    let base = [0u8; PIXELS];
    let levels = filled();
    lies_in(body, &base[0..pixels], &levels[0..places], level)
}

// The same in this base and this level buffer.
fn lies_in<'a>(body: &[u8], base: &'a [u8], levels: &'a [u8], level: Level) -> bool {
    let pixels = pyramid::level(
        base,
        levels,
        count(body, 0),
        count(body, 1),
        word(body, 2),
        count(body, 3),
        count(body, 4),
    );
    let source = source_of(body, base, levels);
    is_product(pixels.len(), level.width, level.height)
        && are_same(pixels, part(source, level.from, pixels.len()))
}

// The slice that has the level.
fn source_of<'a>(body: &[u8], base: &'a [u8], levels: &'a [u8]) -> &'a [u8] {
    if source(body) == 0 {
        return base;
    }
    levels
}

// Whether n is w times h.
fn is_product(n: usize, w: usize, h: usize) -> bool {
    if w == 0 {
        return n == 0;
    }
    if n % w == 0 {
        return n / w == h;
    }
    false
}
