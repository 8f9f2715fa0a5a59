// How much of a stream of items must be read.
ghost use Rattle.std.specs.Prelude.{◌≡◌, ◌<◌};
ghost use Rattle.lists.specs.Refusals.{verdict};
ghost use Rattle.retention.specs.Stream.{longest_input};
ghost use Rattle.retention.specs.Wanted.{items, item_fault, wanted_record, wanted_item, Stands};

use lists::Refusal;

// The time and the records.
const ITEMS: usize = crate::MOST_RECORDS + 1;

// How many items are complete and without fault, and how many bytes of the next are needed.
#[derive(Clone, Copy)]
pub struct Standing {
    pub passed: usize,
    pub bytes: usize,
}

// The fault of an item: item 0 is the time.
fn item_fault(input: &[u8], k: usize) -> Result<(), Refusal>
    requires { k < items }
    ensures { result ≡ verdict (item_fault input.now k) }
{
    if k == 0 {
        return crate::time_fault(input);
    }
    crate::record_fault(input, 9 * k - 1)
}

// How many bytes of the record at a place are needed, if it is faulty or cut short.
fn wanted_record(input: &[u8], at: usize) -> usize
    requires { at < longest_input }
    ensures { result ≡ wanted_record input.now at }
{
    if input.len() <= at {
        return 1;
    }
    if !crate::is_known(input[at]) {
        return 0;
    }
    (at + 9).saturating_sub(input.len())
}

fn wanted_item(input: &[u8], k: usize) -> usize
    requires { k < items }
    ensures { result ≡ wanted_item input.now k }
{
    if k == 0 {
        return 8_usize.saturating_sub(input.len());
    }
    wanted_record(input, 9 * k - 1)
}

// From item k on: how many items are complete and without fault, and how many bytes of the next must still arrive
// before the output can be decided; 0 once it is. A program that reads this many at a time reads no byte that is not
// needed.
pub fn wanted(input: &[u8], k: usize) -> Standing
    ensures { Stands input.now k result }
{
    for passed in k..ITEMS {
        if item_fault(input, passed).is_err() {
            let bytes = wanted_item(input, passed);
            return Standing { passed, bytes };
        }
    }
    Standing {
        passed: k.max(ITEMS),
        bytes: 0,
    }
}
