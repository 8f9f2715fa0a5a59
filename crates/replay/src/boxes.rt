// Kind 6: the search box of a seed.
use crate::fields::{count, due_byte, due_count, due_word, float, word};
use corner_list::Corner;
use lists::Refusal;
use multiscale::{Roi, RoiContext};

pub(crate) fn replay(body: &[u8]) -> bool {
    due_box(body, answer(body)) == body.len()
}

// The box of the seed in the body.
fn answer(body: &[u8]) -> Result<Option<Roi>, Refusal> {
    let seed = Corner {
        x: float(body, 7),
        y: float(body, 8),
        strength: 0.0,
        neighbours: 0,
    };
    context(body).compute_roi(seed)
}

fn context(body: &[u8]) -> RoiContext {
    RoiContext {
        width: count(body, 0),
        height: count(body, 1),
        ring: word(body, 2),
        window: word(body, 3),
        centroid_radius: word(body, 4),
        search_radius: word(body, 5),
        level: word(body, 6),
    }
}

fn due_box(body: &[u8], answer: Result<Option<Roi>, Refusal>) -> usize {
    let nowhere = Roi {
        x0: 0,
        y0: 0,
        x1: 0,
        y1: 0,
    };
    match answer {
        Ok(Some(roi)) => due_ends(body, 0, 1, roi),
        Ok(None) => due_ends(body, 0, 0, nowhere),
        Err(refusal) => due_ends(body, u8::from(refusal), 0, nowhere),
    }
}

fn due_ends(body: &[u8], refusal: u8, found: u8, roi: Roi) -> usize {
    let refused = due_word(body, 36, u32::from(refusal));
    let start = due_count(body, due_byte(body, refused, found), roi.x0);
    let end = due_count(body, due_count(body, start, roi.y0), roi.x1);
    due_count(body, end, roi.y1)
}
