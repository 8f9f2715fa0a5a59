// Replays the oracle's sample (oracle/SAMPLE.md) on the finder's crates, from whole frames to single functions: each
// record's call is made again, and its answer and every buffer that it borrows are compared bit for bit, NaN matching
// NaN. The folder `data` holds the sample of seed 1. The file `stdout` says how many records each of its files has, and
// that none differs.
#![tactic(auto)]

mod boxes;
mod buffers;
mod centroids;
mod fields;
mod frames;
mod levels;
mod library;
mod list_buffer;
mod listings;
mod merges;
mod number;
mod peaks;
mod responses;
mod streams;
mod tally;

use fields::word_at;
use std::fs;
use std::fs::File;
use std::io::Read;
use tally::{ended, print, sum, with};

// The longest body.
const LONGEST: usize = 25027;

// What comes next in a file.
#[derive(Clone, Copy)]
enum Next {
    // A record: whether the answer is the same.
    Record(bool),
    // The last record, which says how many came before it.
    Last(u32),
    // Less than a record.
    Short,
}

// Whether a record's answer is the same. It is not if the kind is unknown or the fields do not fit its length.
fn is_same(kind: u8, body: &[u8]) -> bool {
    match kind {
        1 => frames::replay(body),
        2 => library::replay(body),
        3 => responses::replay(body),
        4 => peaks::replay(body),
        5 => centroids::replay(body),
        6 => boxes::replay(body),
        7 => levels::replay_building(body),
        8 => levels::replay_place(body),
        9 => merges::replay(body),
        10 => streams::replay(body),
        11 => listings::replay(body),
        12 => number::replay_float(body),
        13 => number::replay_ring(body),
        _ => false,
    }
}

// What a record is, replayed.
fn replay_record(kind: u8, body: &[u8]) -> Next {
    if kind == 0 {
        return Next::Last(word_at(body, 0));
    }
    Next::Record(is_same(kind, body))
}

// Reads a body as long as a buffer, and replays its record.
fn read_body(file: &mut File, kind: u8, body: &mut [u8]) -> Next {
    if file.read_exact(body).is_err() {
        return Next::Short;
    }
    replay_record(kind, body)
}

// Reads a body of n bytes, and replays its record.
fn read_behind(file: &mut File, kind: u8, n: usize) -> Next {
    if LONGEST < n {
        return Next::Short;
    }
    let mut body = [0u8; LONGEST];
    read_body(file, kind, &mut body[0..n])
}

// Reads a record and replays it.
fn read(file: &mut File) -> Next {
    let mut head = [0u8; 5];
    if file.read_exact(&mut head).is_err() {
        return Next::Short;
    }
    read_behind(file, head[0], word_at(&head, 1) as usize)
}

// Replays the records that are left in a file.
fn rest(file: &mut File) -> u64 {
    let mut t = 0u64;
    for compared in 0..1000000u64 {
        match read(file) {
            Next::Record(is_same) => {
                t = with(t, is_same);
            }
            Next::Last(n) => {
                return ended(t, compared == (n as u64));
            }
            Next::Short => {
                return ended(t, false);
            }
        }
    }
    ended(t, false)
}

// Replays the records of a file. One that cannot be opened has none, and is not read to its end.
fn records(rt: &HostRuntime, name: &str) -> u64 {
    match fs::open(rt, name) {
        Ok(mut file) => rest(&mut file),
        Err(_) => ended(0, false),
    }
}

// Replays a file and prints its line. Returns the tally with it.
fn replay(rt: &HostRuntime, name: &str, before: u64) -> u64 {
    let t = records(rt, name);
    print(rt, name, t);
    sum(before, t)
}

// The frames of the program and of the library.
fn replay_frames(rt: &HostRuntime) -> u64 {
    replay(rt, "library.bin", replay(rt, "frames.bin", 0))
}

// Calls on one map.
fn replay_maps(rt: &HostRuntime, before: u64) -> u64 {
    let t = replay(rt, "responses.bin", before);
    replay(rt, "centroids.bin", replay(rt, "peaks.bin", t))
}

// Calls about levels, and merges.
fn replay_levels(rt: &HostRuntime, before: u64) -> u64 {
    let t = replay(rt, "boxes.bin", before);
    replay(rt, "merges.bin", replay(rt, "levels.bin", t))
}

// The formats, and the functions of a number.
fn replay_formats(rt: &HostRuntime, before: u64) -> u64 {
    let t = replay(rt, "streams.bin", before);
    replay(rt, "numbers.bin", replay(rt, "listings.bin", t))
}

fn main(rt: HostRuntime) {
    let t = replay_levels(&rt, replay_maps(&rt, replay_frames(&rt)));
    print(&rt, "all", replay_formats(&rt, t));
}
