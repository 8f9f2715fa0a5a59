// Clears the unused end of a buffer: a frame leaves its buffers so (RULES 9.6).
#![tactic(auto)]

ghost use Rattle.std.specs.Prelude.{◌≡◌};
ghost use Rattle.lists.specs.Buffer.{wiped_from};
ghost use Rattle.float32.specs.Float32.{zero};
ghost use Rattle.corner_list.specs.CornerList.{slices};
ghost use Rattle.corner_list.specs.Buffer.{contents, SameSlices};
ghost use Rattle.clearing.specs.Clearing.{cleared_from};

use corner_list::CornerBuffer;

// An element of a buffer that is cleared, with its zero. A copy never fails, and equals what was copied.
pub trait Zero: Copy {
    const ZERO: Self;

    ghost ZERO: { Self };

    ghost succeeds: { (x : Self) → Self.is_infallible x };

    ghost equals: { (x y : Self) → Self.is_clone x y → y ≡ x };
}

impl Zero for f32 {
    const ZERO: f32 = 0.0;

    ghost ZERO = { zero };

    ghost succeeds = { λ x. tt };

    ghost equals = { λ x y e. e };
}

impl Zero for u32 {
    const ZERO: u32 = 0;

    ghost ZERO = { 0 };

    ghost succeeds = { λ x. tt };

    ghost equals = { λ x y e. e };
}

impl Zero for u8 {
    const ZERO: u8 = 0;

    ghost ZERO = { 0 };

    ghost succeeds = { λ x. tt };

    ghost equals = { λ x y e. e };
}

// Sets the places of a buffer from n on to 0.
pub fn clear<T: Zero>(d: &mut [T], n: usize)
    ensures { d.new ≡ wiped_from n T.ZERO d.old }
{
    if n < d.len() {
        d[n..].fill(T::ZERO);
    }
}

// Sets the places of a buffer of corners from n on to 0.
pub fn clear_list(b: &mut CornerBuffer<'_>, n: usize)
    ensures same_slices { SameSlices b.old b.new }
    ensures cleared { contents b.new ≡ cleared_from n (contents b.old) }
{
    clear(b.xs, n);
    clear(b.ys, n);
    clear(b.strengths, n);
    clear(b.neighbours, n);
}
