// The records in their order, up to the earliest fault.
ghost use Rattle.std.specs.Prelude.{◌≡◌, ◌≤◌, length};
ghost use Rattle.lists.specs.Refusals.{number_of};
ghost use Rattle.stream.specs.Internal.{due, left_after, Stopped, Judged};

use crate::{kinds, pixels};
use lists::Refusal;

// Where checking ends: the place of a record, the kind expected there, the pixels that have not come yet, and the
// record's fault. Without a fault it is the end of the stream.
#[derive(Clone, Copy)]
pub(crate) struct Stop {
    pub at: usize,
    pub due: u8,
    pub left: usize,
    pub fault: Result<(), Refusal>,
}

// The kind expected after one of kind `kind` (0 at the start) if `left` pixels have not come yet.
fn due_after(kind: u8, left: usize) -> u8
    ensures { result ≡ due kind left }
{
    match kind {
        0 => 1,
        1 => 2,
        _ => if left == 0 { 4 } else { 3 },
    }
}

fn left_after(input: &[u8], kind: u8, left: usize) -> usize
    requires { 5 ≤ length input.now }
    ensures { result ≡ left_after input.now kind left }
{
    match kind {
        1 => pixels::pixel_count(input),
        3 => left.saturating_sub(32),
        _ => left,
    }
}

// Checks the records up to the earliest fault.
pub(crate) fn judge(input: &[u8]) -> Stop
    ensures { Stopped input.now result }
{
    let mut at = 0;
    let mut kind = 0;
    let mut left = 0;
    // A `while`: the kind of a record decides whether another follows, and its length where.
    while kind != 4 {
        kind = due_after(kind, left);
        let fault = kinds::record_fault(input, at, kind, left);
        if fault.is_err() {
            return Stop {
                at,
                due: kind,
                left,
                fault,
            };
        }
        at = at + 1 + kinds::body_length(kind);
        left = left_after(input, kind, left);
    }
    Stop {
        at,
        due: kind,
        left,
        fault: Ok(()),
    }
}

// The earliest fault.
pub(crate) fn stream_fault(input: &[u8]) -> Result<(), Refusal>
    ensures { Judged input.now (number_of result) }
{
    judge(input).fault
}
