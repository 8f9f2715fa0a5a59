// The program `retained`: prints which items of the stream that it reads from standard input are held. It reads no more
// bytes than decide the letters. If it cannot read or write, it says so in a line on standard error.
#![tactic(auto)]

mod writing;

ghost use Rattle.std.specs.Prelude.{◌≡◌, false, length};
ghost use Rattle.input.specs.Input.{is_below0};
ghost use Rattle.input.specs.Reading.{Read};
ghost use Rattle.retention.specs.Wanted.{wanted};
ghost use Rattle.retention.specs.Stream.{longest_input};

use input::Input;
use retention::LONGEST;
use std::io::Stdin;
use writing::Output;

// No more is read: the time and 65,536 records.
const LONGEST_STREAM: usize = 8 + 9 * retention::MOST_RECORDS;

// Reads as many bytes as are needed, again and again, until none are needed or none come.
fn read_stream(stdin: Stdin, stream: &mut [u8]) -> Input
    requires { length stream.old ≡ longest_input }
    ensures { Read wanted result stream.new }
{
    let mut input = input::begin();
    let mut passed = 0;
    loop {
        let n = input::count(input);
        let standing = retention::wanted(&stream[..n], passed);
        passed = standing.passed;
        let more = standing.bytes;
        if more == 0 {
            return input;
        }
        input = input::read_on(stdin, input, more, stream);
        if input::count(input) == n {
            return input;
        }
    }
}

// Prints the letters of what was read.
fn print_letters(rt: &HostRuntime, stream: &[u8], input: Input) -> Output
    requires read { Read wanted input stream.now }
    requires answer_value { is_below0 input.answer ≡ false }
{
    let n = input::count(input);
    let mut text = [0u8; LONGEST];
    let end = retention::list_holdings(&stream[..n], &mut text);
    writing::write_letters(rt, &text[..end], stream, input)
}

// Answers what was read.
fn answer(rt: &HostRuntime, stream: &[u8], input: Input) -> Output
    requires { Read wanted input stream.now }
{
    if input::is_failed(input) {
        return writing::report_input(rt, input);
    }
    print_letters(rt, stream, input)
}

fn main(rt: HostRuntime) {
    let mut stream = [0u8; LONGEST_STREAM];
    let input = read_stream(rt.stdin(), &mut stream);
    answer(&rt, &stream, input);
}
