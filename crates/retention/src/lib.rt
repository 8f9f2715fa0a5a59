// What may be deleted: whether an item is held at a time, and the list for a stream of items. A stream is eight bytes
// of time and then records, each one byte for the kind and eight bytes for the second of receipt or issue.
#![tactic(auto)]

pub mod item; // holding: whether an item is held
mod list; // list_holdings: what is printed for a stream
mod reading; // wanted: how much of a stream must be read

ghost use Rattle.std.specs.Prelude.{◌≡◌, ◌+◌, ◌≤◌, length};
ghost use Rattle.lists.specs.Refusals.{verdict};
ghost use Rattle.retention.specs.Retention.{known, letter_of};
ghost use Rattle.retention.specs.Stream.{little_endian, time_fault, second_at, record_fault};

pub use list::{LONGEST, list_holdings};
use lists::Refusal;
pub use reading::{Standing, wanted};

// The most records of a stream that are read.
pub const MOST_RECORDS: usize = 65536;

// The latest second: 2^40.
const LATEST: u64 = 1099511627776;

// An item at a time.
#[derive(Clone, Copy)]
pub enum Holding {
    NotYet,
    Held,
    Gone,
}

impl Holding {
    // Its letter: N not yet, H held, G gone.
    pub fn letter(self) -> u8
        ensures { result ≡ letter_of self }
    {
        match self {
            Holding::NotYet => b'N',
            Holding::Held => b'H',
            Holding::Gone => b'G',
        }
    }
}

// Whether there is such a kind: 1 is a file, 2 a photograph, 3 a token.
fn is_known(kind: u8) -> bool
    ensures { result ≡ known kind }
{
    matches!(kind, 1..=3)
}

// A number of eight bytes, little-endian.
fn number_of(bytes: &[u8]) -> u64
    requires { length bytes.now ≡ 8 }
    ensures { result ≡ little_endian bytes.now }
{
    let mut eight = [0; 8];
    eight.copy_from_slice(bytes);
    u64::from_le_bytes(eight)
}

// The fault of the time.
fn time_fault(input: &[u8]) -> Result<(), Refusal>
    ensures { result ≡ verdict (time_fault input.now) }
{
    if input.len() < 8 {
        return Err(Refusal::CutShort);
    }
    if LATEST < number_of(&input[..8]) {
        return Err(Refusal::TooLate);
    }
    Ok(())
}

// The second in the record at a place, which is complete.
fn start_at(input: &[u8], at: usize) -> u64
    requires { at + 9 ≤ length input.now }
    ensures { result ≡ second_at input.now at }
{
    let first = at + 1;
    let end = at + 9;
    number_of(&input[first..end])
}

// The fault of the record at a place.
fn record_fault(input: &[u8], at: usize) -> Result<(), Refusal>
    ensures { result ≡ verdict (record_fault input.now at) }
{
    if input.len() <= at {
        return Err(Refusal::CutShort);
    }
    if !is_known(input[at]) {
        return Err(Refusal::UnknownKind);
    }
    if input.len() - at < 9 {
        return Err(Refusal::CutShort);
    }
    if LATEST < start_at(input, at) {
        return Err(Refusal::TooLate);
    }
    Ok(())
}
