// What may be deleted: whether an item is held, and what the program `retained` prints for a stream.
ghost use Rattle.lists.specs.Buffer.{Written};
ghost use Rattle.retention.specs.Stream.{output_of};
ghost use Rattle.capi_formats.specs.Holding.{HoldingTold};

use retention::LONGEST;

// Sets `letter` to the letter of an item at a time: N not yet, H held, G gone.
#[unsafe(no_mangle)]
pub extern "C" fn zakdomp_holding(kind: u8, start: u64, time: u64, letter: &mut u8) -> u8
    ensures { HoldingTold kind start time letter.old result letter.new }
{
    match retention::item::holding(kind, start, time) {
        Ok(state) => {
            *letter = state.letter();
            0
        }
        Err(refusal) => u8::from(refusal),
    }
}

// Writes what is printed for a stream of items to the start of `output`, and returns its length.
#[unsafe(no_mangle)]
pub extern "C" fn zakdomp_holdings(input: &[u8], output: &mut [u8; LONGEST]) -> usize
    ensures { Written (output_of input.now) output.old result output.new }
{
    retention::list_holdings(input, output)
}
