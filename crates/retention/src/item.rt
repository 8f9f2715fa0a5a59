// Whether an item is held at a time.
ghost use Rattle.std.specs.Prelude.{◌≡◌, ◌≤◌, ◌^◌};
ghost use Rattle.lists.specs.Refusals.{verdict};
ghost use Rattle.retention.specs.Retention.{state_of, refusal_of};
ghost use Rattle.retention.specs.Retention.{stays as stays_of};
ghost use Rattle.retention.specs.Answer.{StateTold};

use crate::{Holding, LATEST};
use lists::Refusal;

// Whether an item that was received or issued is still held.
fn stays(kind: u8, start: u64, time: u64) -> bool
    requires { start ≤ 2 ^ 40 }
    ensures { result ≡ stays_of kind start time }
{
    match kind {
        1 => true,
        2 => time / 86400 <= start / 86400 + 89,
        _ => time < start + 604800,
    }
}

pub(crate) fn state(kind: u8, start: u64, time: u64) -> Holding
    requires { start ≤ 2 ^ 40 }
    ensures { result ≡ state_of kind start time }
{
    if time < start {
        return Holding::NotYet;
    }
    if stays(kind, start, time) {
        Holding::Held
    } else {
        Holding::Gone
    }
}

// Why an item at a time is refused.
fn refusal(kind: u8, start: u64, time: u64) -> Result<(), Refusal>
    ensures { result ≡ verdict (refusal_of kind start time) }
{
    if !crate::is_known(kind) {
        return Err(Refusal::UnknownKind);
    }
    if LATEST < start {
        return Err(Refusal::TooLate);
    }
    if LATEST < time {
        return Err(Refusal::TooLate);
    }
    Ok(())
}

// Whether an item of a kind, received or issued at the second `start`, is held at the second `time`.
pub fn holding(kind: u8, start: u64, time: u64) -> Result<Holding, Refusal>
    ensures { StateTold kind start time result }
{
    refusal(kind, start, time)?;
    Ok(state(kind, start, time))
}
