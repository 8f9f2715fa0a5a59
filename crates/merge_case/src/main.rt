// The program `merge_case`: prints what two merges leave of the corners (1 - 2^-24, 0), (2, 0) and (0, 100) with radius
// 1, as listings. By distance alone two are left; by cells, as the frame merges, all three. If it cannot write, it says
// so in a line on standard error.
#![tactic(auto)]

ghost use Rattle.std.specs.Prelude.{◌≡◌, cond, IsErr, ◌≤◌};
ghost use Rattle.corner_list.specs.CornerList.{places_of, corners_of};
ghost use Rattle.corner_list.specs.Buffer.{contents, seen, SameSlices};
ghost use Rattle.listing.specs.Text.{corners_text};
ghost use Rattle.merge_naive.specs.Case.{corner, three, two};

use corner_list::{Corner, CornerBuffer, CornerView};
use listing::{LONGEST, MOST_CORNERS};
use std::io;

// A corner of strength 1 without neighbours.
fn unit_corner(x: f32, y: f32) -> Corner
    ensures { result ≡ corner x y }
{
    Corner {
        x,
        y,
        strength: 1.0,
        neighbours: 0,
    }
}

// Puts the three corners at the start of a buffer.
fn put_case(b: &mut CornerBuffer<'_>)
    requires { 3 ≤ places_of (contents b.old) }
    ensures same_slices { SameSlices b.old b.new }
    ensures put { corners_of (contents b.new) 3 ≡ three }
    ensures bound { 3 ≤ places_of (contents b.new) }
{
    let below_one = 0.99999994; // 1 - 2^-24
    b.put(0, unit_corner(below_one, 0.0));
    b.put(1, unit_corner(2.0, 0.0));
    b.put(2, unit_corner(0.0, 100.0));
}

// Merges the three corners of a buffer, by cells or by distance alone, and returns how many are left. Which one is a
// bool and no closure, because what is then written is promised by it.
fn merge_case(b: &mut CornerBuffer<'_>, cells: bool) -> usize
    requires bound { 3 ≤ places_of (contents b.old) }
    requires neighbours_value { corners_of (contents b.old) 3 ≡ three }
    ensures same_slices { SameSlices b.old b.new }
    ensures left { corners_of (contents b.new) result ≡ cond cells three two }
{
    if cells {
        return merge::merge_corners_simple(b, 3, 1.0).unwrap_or(0);
    }
    merge_naive::merge_corners_naive(b, 3, 1.0).unwrap_or(0)
}

// Writes a text that is the listing of what is left.
fn write_listing(rt: &HostRuntime, text: &[u8], cells: bool)
    requires { text.now ≡ corners_text (cond cells three two) }
{
    let outcome = rt.write_all(text);
    let written = outcome.is_ok();
    if written {
        return;
    }
    report(rt, outcome);
}

// Reports why a text was not written. Its caller tests and does not `match`, as the edit written_is_reported turns the
// test around.
fn report(rt: &HostRuntime, outcome: io::Result<()>)
    requires { IsErr outcome }
{
    let error = outcome.unwrap_err();
    let _ = eprintln!(rt; "merge_case: standard output: {error}");
}

// Prints the first `count` corners of a buffer, which are what is left.
fn print_corners(rt: &HostRuntime, list: CornerView<'_>, count: usize, cells: bool)
    requires { corners_of (seen list) count ≡ cond cells three two }
{
    let mut text = [0u8; LONGEST];
    let listed = listing::write_corners(list, count, &mut text);
    let Ok(end) = listed else {
        return;
    };
    write_listing(rt, &text[..end], cells);
}

// Prints what a merge leaves of the three corners.
fn print_case(rt: &HostRuntime, cells: bool) {
    let mut xs = [0.0f32; MOST_CORNERS];
    let mut ys = [0.0f32; MOST_CORNERS];
    let mut strengths = [0.0f32; MOST_CORNERS];
    let mut neighbours = [0u32; MOST_CORNERS];
    let mut b = CornerBuffer {
        xs: &mut xs,
        ys: &mut ys,
        strengths: &mut strengths,
        neighbours: &mut neighbours,
    };
    put_case(&mut b);
    let count = merge_case(&mut b, cells);
    print_corners(rt, b.view(), count, cells);
}

fn main(rt: HostRuntime) {
    print_case(&rt, false);
    print_case(&rt, true);
}
