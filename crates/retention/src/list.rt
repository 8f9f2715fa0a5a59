// What is printed for a stream of items.
ghost use Rattle.std.specs.Prelude.{◌≡◌, [], ◌∷◌, ◌+◌, ◌≤◌, ◌^◌, length};
ghost use Rattle.lists.specs.Buffer.{Written};
ghost use Rattle.lists.specs.Refusals.{refusal_number, judged};
ghost use Rattle.listing.specs.Text.{newline, refused_text};
ghost use Rattle.listing.specs.Internal.{Wrote};
ghost use Rattle.retention.specs.Retention.{letter_of};
ghost use Rattle.retention.specs.Stream.{most_records, time_of, record_fault, state_at, lines_from, output_of};
ghost use Rattle.retention.specs.Internal.{longest};

use lists::Refusal;

// The longest text: a letter for each record but the last, with a newline, and `refused 20` with its newline.
pub const LONGEST: usize = 2 * (crate::MOST_RECORDS - 1) + 11;

// Where the last record ends.
const LAST: usize = 8 + 9 * crate::MOST_RECORDS;

// ---- lines

fn put_letter(out: &mut [u8], at: usize, letter: u8) -> usize
    requires { at + 2 ≤ length out.old }
    ensures { Wrote (letter ∷ newline ∷ []) at out.old result out.new }
{
    out[at] = letter;
    out[at + 1] = b'\n';
    at + 2
}

fn put_refusal(out: &mut [u8], at: usize, refusal: Refusal) -> usize
    requires { at + 11 ≤ length out.old }
    ensures { Wrote (refused_text (refusal_number refusal)) at out.old result out.new }
{
    let mut text = [0u8; listing::LONGEST];
    let n = listing::write_refusal(u8::from(refusal), &mut text);
    let end = at + n;
    out[at..end].copy_from_slice(&text[..n]);
    end
}

// ---- a stream

// The letter of the record at a place.
fn letter_at(input: &[u8], at: usize, time: u64) -> Result<u8, Refusal>
    requires { time ≡ time_of input.now }
    ensures { result ≡ judged (record_fault input.now at) (letter_of (state_at input.now at)) }
{
    crate::record_fault(input, at)?;
    let start = crate::start_at(input, at);
    Ok(crate::item::state(input[at], start, time).letter())
}

// Writes the lines of a stream whose time has no fault.
fn list_records(input: &[u8], time: u64, out: &mut [u8]) -> usize
    requires { (time ≡ time_of input.now) × (length out.old ≡ longest) }
    ensures { Wrote (lines_from input.now most_records 0) 0 out.old result out.new }
{
    let stop = input.len().min(LAST);
    let mut end = 0;
    for at in (8..stop).step_by(9) {
        match letter_at(input, at, time) {
            Ok(letter) => end = put_letter(out, end, letter),
            Err(refusal) => return put_refusal(out, end, refusal),
        }
    }
    end
}

// Writes what is printed for a stream to the start of a buffer, and returns how long it is.
pub fn list_holdings(input: &[u8], out: &mut [u8; LONGEST]) -> usize
    ensures { Written (output_of input.now) out.old result out.new }
{
    match crate::time_fault(input) {
        Ok(()) => list_records(input, crate::number_of(&input[..8]), out),
        Err(refusal) => put_refusal(out, 0, refusal),
    }
}
