// Some coordinates in four places.
ghost use Rattle.std.specs.Prelude.{◌+◌, ◌≤◌, length};
ghost use Rattle.pieces.specs.Loaded.{Loaded};

// The `count` coordinates from `from` on, and zeros in the places that are left.
pub(crate) fn loaded(ps: &[i32], from: usize, count: usize) -> [i32; 4]
    requires { (count ≤ 4) × (from + count ≤ length ps.now) }
    ensures answer { Loaded ps.now from count result }
{
    let mut row = [0i32; 4];
    for k in 0..count {
        row[k] = ps[from + k];
    }
    row
}
