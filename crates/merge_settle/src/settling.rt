// The kept corners are at the start of a buffer, and each corner of the list is settled among them. If the list is
// merged in place, it is in that buffer too, and `list` is None; if it is merged apart, it is in a buffer of its own.
// The index of the kept corners is a borrowed table, or one on the stack, whose size depends on the list and on how
// many are kept: merging goes on with the largest table when they outgrow the one before.
ghost use Rattle.std.specs.Prelude.{◌≡◌, ◌<◌, ◌≤◌, length};
ghost use Rattle.corner_list.specs.CornerList.{corner_at, places_of};
ghost use Rattle.corner_list.specs.Buffer.{contents, seen, SameSlices};
ghost use Rattle.merge_grid.specs.Grid.{joins};
ghost use Rattle.merge_settle.specs.Settle.{given};
ghost use Rattle.merge_settle.specs.Internal.{slots_of, Indexed, Settled, start, many_kept};
ghost use Rattle.merge_settle.specs.Internal.{IsStep, StopAfter};

use corner_list::{Corner, CornerBuffer, CornerView};
use merge_grid::{Grid, Position};

// The lists that the small table on the stack is for, and the kept corners that the middle one is for.
const FEW: usize = 512;

const MANY: usize = 8192;

// How many slots the tables on the stack have: 8 KB, 128 KB and 512 KB.
const SMALL_TABLE: usize = 4 * FEW;

const MIDDLE_TABLE: usize = 4 * MANY;

const LARGEST_TABLE: usize = 131072;

// How far merging a list has come: how many of its corners are settled, and how many of these are kept.
#[derive(Clone, Copy)]
pub(crate) struct Step {
    pub(crate) done: usize,
    pub(crate) kept: usize,
}

// Settles c among the first k corners of a buffer, lists its place, and returns how many are then kept.
fn settle_listed(
    b: &mut CornerBuffer<'_>,
    table: &mut [f32],
    g: Grid,
    floor: usize,
    k: usize,
    c: Corner,
) -> usize
    requires k_bound { k < places_of (contents b.old) }
    requires indexed { Indexed g floor (slots_of table.old) b.old.xs.now b.old.ys.now k }
    ensures same_slices { SameSlices b.old b.new }
    ensures settled { Settled (joins g) k c (contents b.old) result (contents b.new) }
    ensures indexed_2 { Indexed g floor (slots_of table.new) b.new.xs.now b.new.ys.now result }
{
    let p = Position::from(c);
    let v = b.view();
    let joined = crate::search::find_joined(v.xs, v.ys, table, g, floor, k, p);
    let at = crate::settle_corner(b, k, c, joined);
    let Some(place) = at else {
        return k;
    };
    crate::index::list_place(table, g, place, p);
    crate::count_with(k, Some(place))
}

// The corner at a place of the list.
fn given_at(list: Option<CornerView<'_>>, v: CornerView<'_>, at: usize) -> Corner
    ensures { result ≡ corner_at (given list.entry (seen v.entry)) at }
{
    match list {
        Some(own) => own.at(at),
        None => v.at(at),
    }
}

// The result of `floor_at` for the list.
fn floor_of(
    list: Option<CornerView<'_>>,
    v: CornerView<'_>,
    slots: usize,
    g: Grid,
    low: usize,
    i: usize,
    n: usize,
) -> usize {
    match list {
        Some(own) => crate::index::floor_at(own.xs, own.ys, slots, g, low, i, n),
        None => crate::index::floor_at(v.xs, v.ys, slots, g, low, i, n),
    }
}

// Merges on from a step, with a table for the index: to the end of a list of n corners, or until `most` are kept.
pub(crate) fn merge_with(
    list: Option<CornerView<'_>>,
    b: &mut CornerBuffer<'_>,
    table: &mut [f32],
    g: Grid,
    n: usize,
    s: Step,
    most: usize,
) -> Step
    requires n_bound { n ≤ places_of (contents b.old) }
    requires table_nonzero { 0 < length table.old }
    requires step { IsStep n s }
    ensures same_slices { SameSlices b.old b.new }
    ensures stopped { StopAfter (joins g) list.entry most n (contents b.old) s (contents b.new) result }
{
    let done = s.done;
    let mut k = s.kept;
    let mut floor = 0;
    let mut low = 0;
    let v = b.view();
    crate::index::list_kept(v.xs, v.ys, table, g, floor, k);
    // By the place, at which merging may stop, and from which it goes on.
    for i in done..n {
        if most <= k {
            return Step { done: i, kept: k };
        }
        let v = b.view();
        low = floor_of(list, v, table.len(), g, low, i, n);
        floor = crate::index::refresh(v.xs, v.ys, table, g, floor, low, k, i);
        let c = given_at(list, v, i);
        k = settle_listed(b, table, g, floor, k, c);
    }
    Step { done: n, kept: k }
}

// How many slots of a borrowed table are used for a list of n corners: four for each corner and four more, or all. None
// if it is too short: if it has at most two slots for each, and fewer than the largest table on the stack.
pub(crate) fn slots_for(slots: usize, n: usize) -> usize
    ensures { result ≤ slots }
{
    if n < slots / 4 {
        return n * 4 + 4;
    }
    if n < slots / 2 {
        return slots;
    }
    if LARGEST_TABLE <= slots { slots } else { 0 }
}

// Merges a list of n corners from the start, until `many_kept` are kept: a short list with the small table, any other
// with the middle one. A long list of which few stay pays for clearing the middle table, some five microseconds.
fn merge_some(list: Option<CornerView<'_>>, b: &mut CornerBuffer<'_>, g: Grid, n: usize) -> Step
    requires { n ≤ places_of (contents b.old) }
    ensures same_slices { SameSlices b.old b.new }
    ensures stopped { StopAfter (joins g) list.entry many_kept n (contents b.old) start (contents b.new) result }
{
    let s = Step { done: 0, kept: 0 };
    if n <= FEW {
        let mut t = [1.0; SMALL_TABLE];
        return merge_with(list, b, &mut t, g, n, s, MANY);
    }
    let mut t = [1.0; MIDDLE_TABLE];
    merge_with(list, b, &mut t, g, n, s, MANY)
}

// Merges on with the largest table, to the end.
fn merge_most(
    list: Option<CornerView<'_>>,
    b: &mut CornerBuffer<'_>,
    g: Grid,
    n: usize,
    s: Step,
) -> Step
    requires n_bound { n ≤ places_of (contents b.old) }
    requires step { IsStep n s }
    ensures same_slices { SameSlices b.old b.new }
    ensures stopped { StopAfter (joins g) list.entry n n (contents b.old) s (contents b.new) result }
{
    let mut t = [1.0; LARGEST_TABLE];
    merge_with(list, b, &mut t, g, n, s, n)
}

// Merges to the end of a list of n corners, or until `most` are kept: with a smaller table first, as far as it goes.
// Recursive only so that LLVM does not inline the functions with the tables: so a table takes stack only while it is
// used.
pub(crate) fn merge_up_to(
    list: Option<CornerView<'_>>,
    b: &mut CornerBuffer<'_>,
    g: Grid,
    n: usize,
    most: usize,
) -> Step
    requires n_bound { n ≤ places_of (contents b.old) }
    requires most_le_n { most ≤ n }
    ensures same_slices { SameSlices b.old b.new }
    ensures stopped { StopAfter (joins g) list.entry most n (contents b.old) start (contents b.new) result }
{
    if most <= MANY {
        return merge_some(list, b, g, n);
    }
    let s = merge_up_to(list, b, g, n, most / 16);
    if n <= s.done {
        return s;
    }
    merge_most(list, b, g, n, s)
}
