// Counts of records. A tally is one number that holds three counts, each below 2^24: the records that were compared;
// those of them that differ, from 2^24 on; and the files that were not read to their end, from 2^48 on. A file has at
// most a million records.

const DIFFERS: u64 = 16777216;

const CUT_SHORT: u64 = 281474976710656;

// The sum of two tallies.
pub(crate) fn sum(t: u64, u: u64) -> u64 {
    t.wrapping_add(u)
}

// With one more record.
pub(crate) fn with(t: u64, is_same: bool) -> u64 {
    if is_same {
        return sum(t, 1);
    }
    sum(t, DIFFERS + 1)
}

// After reading ended, at the file's end or not.
pub(crate) fn ended(t: u64, is_whole: bool) -> u64 {
    if is_whole {
        return t;
    }
    sum(t, CUT_SHORT)
}

// Prints the line of a file, or of all.
pub(crate) fn print(rt: &HostRuntime, name: &str, t: u64) {
    let compared = t % DIFFERS;
    let differ = t / DIFFERS % DIFFERS;
    let end = end_of(t < CUT_SHORT);
    let _ = println!(rt; "{name}: {compared} compared, {differ} differ{end}");
}

// How such a line ends.
fn end_of(is_whole: bool) -> &'static str {
    if is_whole { "" } else { ", cut short" }
}
