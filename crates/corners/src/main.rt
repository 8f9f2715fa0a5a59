// The program `corners`: prints the listing of the frame stream that it reads from standard input. It reads no more
// bytes than decide the listing. If it cannot read or write, it says so in a line on standard error.
#![tactic(auto)]

mod writing;

ghost use Rattle.std.specs.Prelude.{◌≡◌, false, length};
ghost use Rattle.input.specs.Input.{is_below0};
ghost use Rattle.input.specs.Reading.{Read};
ghost use Rattle.stream.specs.Wanted.{wanted};
ghost use Rattle.stream.specs.Stream.{longest_stream};

use input::Input;
use listing::LONGEST;
use std::io::Stdin;
use writing::Output;

// No frame stream is longer.
const LONGEST_STREAM: usize = 23 + stream::MOST_PIXELS / 32 * 33;

// Reads as many bytes as are needed, again and again, until none are needed or none come.
fn read_stream(stdin: Stdin, stream: &mut [u8]) -> Input
    requires { length stream.old ≡ longest_stream }
    ensures { Read wanted result stream.new }
{
    let mut input = input::begin();
    loop {
        let n = input::count(input);
        let more = stream::wanted(&stream[..n]);
        if more == 0 {
            return input;
        }
        input = input::read_on(stdin, input, more, stream);
        if input::count(input) == n {
            return input;
        }
    }
}

// Prints the listing of what was read.
fn print_listing(rt: &HostRuntime, stream: &[u8], input: Input) -> Output
    requires read { Read wanted input stream.now }
    requires answer_value { is_below0 input.answer ≡ false }
{
    let n = input::count(input);
    let mut text = [0u8; LONGEST];
    let end = finder::find(&stream[..n], &mut text);
    writing::write_listing(rt, &text[..end], stream, input)
}

// Answers what was read.
fn answer(rt: &HostRuntime, stream: &[u8], input: Input) -> Output
    requires { Read wanted input stream.now }
{
    if input::is_failed(input) {
        return writing::report_input(rt, input);
    }
    print_listing(rt, stream, input)
}

fn main(rt: HostRuntime) {
    let mut stream = [0u8; LONGEST_STREAM];
    let input = read_stream(rt.stdin(), &mut stream);
    answer(&rt, &stream, input);
}
