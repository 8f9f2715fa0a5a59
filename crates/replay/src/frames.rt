// Kind 1: a frame of the program, from its stream to its text.
use crate::buffers::fill_bytes;
use crate::fields::{bytes_at, past_bytes};
use crate::listings::is_text_due;
use listing::LONGEST;

pub(crate) fn replay(body: &[u8]) -> bool {
    let mut text = [0u8; LONGEST];
    fill_bytes(&mut text);
    let n = finder::find(bytes_at(body, 0), &mut text);
    is_text_due(body, past_bytes(body, 0), &text, n)
}
