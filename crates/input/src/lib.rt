// Standard input, read as far as its reader needs. Only this crate makes an `Input`, and only reading can bring one to
// its end or to a failure.
#![tactic(auto)]

ghost use Rattle.std.specs.Prelude.{◌≡◌, true, pos, MatchResult};
ghost use Rattle.std.specs.Io.{ReadsAtMost};
ghost use Rattle.input.specs.Input.{begun, is_below0, came_by, IsFailure, FailedWith, ReadOn};

use std::io;
use std::io::{Read, Stdin};

// How far standard input was read.
#[derive(Clone, Copy)]
pub struct Input {
    // How many bytes came. They are at the start of the reader's buffer.
    count: usize,
    // What the last read answered: how many bytes it brought, 0 at the end of the input, below 0 if it failed, which is
    // minus the number of the system's error; 1 before the first.
    answer: isize,
}

// Nothing has been read yet.
pub fn begin() -> Input
    ensures { result ≡ begun }
{
    Input {
        count: 0,
        answer: 1,
    }
}

// One more read, of `more` bytes or as many as the buffer has places for, after those that came.
pub fn read_on(mut stdin: Stdin, input: Input, more: usize, buffer: &mut [u8]) -> Input
    ensures { ReadOn input more buffer.old result buffer.new }
{
    let start = input.count.min(buffer.len());
    let end = start + more.min(buffer.len() - start);
    let outcome = stdin.read(&mut buffer[start..end]);
    let answer = answer_of(outcome, &buffer[start..end]);
    Input {
        count: start + count_of(answer),
        answer,
    }
}

// What a read of a buffer answers: how many bytes it brought, or below 0 if it failed.
fn answer_of(outcome: io::Result<usize>, buffer: &[u8]) -> isize
    requires { ReadsAtMost outcome buffer.now }
    ensures { MatchResult outcome (λ n. result ≡ pos n) (λ e. IsFailure e result) }
{
    match outcome {
        Ok(n) => n as isize,
        Err(error) => failure_of(error),
    }
}

// A failed read's answer: minus the number of the system's error, or -1 if it has none above 0, which is then told as
// the system's error 1.
fn failure_of(error: io::Error) -> isize
    ensures { IsFailure error result }
{
    match error.raw_os_error() {
        Some(code) if code > 0 => -(code as isize),
        _ => -1,
    }
}

// How many bytes a read with this answer brought.
fn count_of(answer: isize) -> usize
    ensures { result ≡ came_by answer }
{
    usize::try_from(answer).unwrap_or(0)
}

// How many bytes came.
pub fn count(input: Input) -> usize
    ensures { result ≡ input.count }
{
    input.count
}

// Whether the last read failed.
pub fn is_failed(input: Input) -> bool
    ensures { result ≡ is_below0 input.answer }
{
    input.answer < 0
}

// Why the last read failed.
pub fn failure(input: Input) -> io::Error
    ensures { FailedWith input.answer result }
{
    let number = input.answer.unsigned_abs();
    io::Error::from_raw_os_error(i32::try_from(number).unwrap_or(0))
}
