// What the program says, on standard output or standard error. Only this module makes an `Output`: code that returns
// one has called a function of this module.
ghost use Rattle.std.specs.Prelude.{◌≡◌, true, IsErr};
ghost use Rattle.retention.specs.Stream.{output_of};
ghost use Rattle.input.specs.Input.{is_below0};
ghost use Rattle.input.specs.Reading.{Prints};
ghost use Rattle.retention.specs.Wanted.{wanted};

use input::Input;
use std::io;

#[derive(Clone, Copy)]
pub(crate) struct Output {
    // Whether a text was written to its end.
    written: bool,
}

// Writes the text of what was read.
pub(crate) fn write_letters(rt: &HostRuntime, text: &[u8], stream: &[u8], input: Input) -> Output
    requires { Prints wanted output_of input stream.now text.now }
{
    let outcome = rt.write_all(text);
    let written = outcome.is_ok();
    if written {
        return Output { written };
    }
    report_output(rt, outcome)
}

// Reports why a text was not written. Its caller tests and does not `match`, as the edit written_is_reported turns the
// test around.
fn report_output(rt: &HostRuntime, outcome: io::Result<()>) -> Output
    requires { IsErr outcome }
{
    let error = outcome.unwrap_err();
    let _ = eprintln!(rt; "retained: standard output: {error}");
    Output { written: false }
}

// Reports why a read failed.
pub(crate) fn report_input(rt: &HostRuntime, input: Input) -> Output
    requires { is_below0 input.answer ≡ true }
{
    let error = input::failure(input);
    let _ = eprintln!(rt; "retained: standard input: {error}");
    Output { written: false }
}
