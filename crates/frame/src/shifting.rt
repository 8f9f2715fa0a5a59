// Moves the columns, or the rows, of corners by a box's corner.
ghost use Rattle.std.specs.Prelude.{◌≡◌, ◌+◌, ◌≤◌, length, get_or};
ghost use Rattle.std.specs.Float.{binary32, nan};
ghost use Rattle.std.specs.Float.Ieee.{add};
ghost use Rattle.lists.specs.Tab.{tab};
ghost use Rattle.lists.specs.Buffer.{placed};

// Adds a number to the n floats after the first `held` of a slice.
pub(crate) fn shift(d: &mut [f32], held: usize, n: usize, by: f32)
    requires { held + n ≤ length d.old }
    ensures { d.new ≡ placed held
        (tab n (λ i. add binary32 (get_or d.old (held + i) nan) by)) d.old }
{
    for x in d[held..held + n].iter_mut() {
        *x += by;
    }
}
