// What the program `corners` prints for a stream.
ghost use Rattle.finder.specs.Finder.{output_of};
ghost use Rattle.lists.specs.Buffer.{Written};

use listing::LONGEST;

// Writes the listing of a frame stream to the start of `output`, and returns its length.
#[unsafe(no_mangle)]
pub extern "C" fn zakdomp_corners(input: &[u8], output: &mut [u8; LONGEST]) -> usize
    ensures { Written (output_of input.now) output.old result output.new }
{
    finder::find(input, output)
}
