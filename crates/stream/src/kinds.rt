// A record: its kind, its body of fixed length, and its faults. A kind is a number, taken apart by `match`
// (RULES 16).
ghost use Rattle.std.specs.Prelude.{◌≡◌, length, drop};
ghost use Rattle.lists.specs.Refusals.{verdict};
ghost use Rattle.stream.specs.Stream.{body_length, body_fault, record_fault};
ghost use Rattle.stream.specs.Internal.{kind_fault};

use crate::{fields, pixels};
use lists::Refusal;

// The fixed length of a kind's body.
pub(crate) fn body_length(kind: u8) -> usize
    ensures { result ≡ body_length kind }
{
    match kind {
        1 => 4,
        2 => 16,
        3 => 32,
        _ => 0,
    }
}

// The fault of a kind if `due` is expected.
fn kind_fault(kind: u8, due: u8) -> Result<(), Refusal>
    ensures { result ≡ verdict (kind_fault kind due) }
{
    match kind {
        1..=4 => if kind == due {
            Ok(())
        } else {
            Err(Refusal::OutOfOrder)
        },
        _ => Err(Refusal::UnknownKind),
    }
}

fn body_fault(body: &[u8], kind: u8, left: usize) -> Result<(), Refusal>
    requires { length body.now ≡ body_length kind }
    ensures { result ≡ verdict (body_fault kind left body.now) }
{
    match kind {
        1 => fields::sides_fault(body),
        2 => fields::parameters_fault(body),
        3 => pixels::padding_fault(body, left),
        _ => Ok(()),
    }
}

// The fault of the record at a place if the kind `due` is expected and `left` pixels have not come yet.
pub(crate) fn record_fault(input: &[u8], at: usize, due: u8, left: usize) -> Result<(), Refusal>
    ensures { result ≡ verdict (record_fault due left (drop at input.now)) }
{
    if input.len() <= at {
        return Err(Refusal::CutShort);
    }
    kind_fault(input[at], due)?;
    let start = at + 1;
    let count = body_length(due);
    if input.len() - start < count {
        return Err(Refusal::CutShort);
    }
    let end = start + count;
    body_fault(&input[start..end], due, left)
}
