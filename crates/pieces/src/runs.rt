// How often a value stands.
ghost use Rattle.std.specs.Prelude.{◌+◌, ◌<◌, length};
ghost use Rattle.curve.specs.Lists.{NeverFall};
ghost use Rattle.cut_window.specs.Window.{Run};
ghost use Rattle.pieces.specs.Walk.{LargerBehind};

// How many knots behind the one with index i have the value of the first of them, above which another one is.
pub(crate) fn run_behind(knots: &[u16], i: usize) -> usize
    requires { NeverFall knots.now × (i + 1 < length knots.now) × LargerBehind knots.now i }
    ensures answer { Run knots.now i result }
{
    let v = knots[i + 1];
    let mut s = 1;
    // A while, since a larger knot ends it and no count.
    while knots[i + s + 1] == v {
        s += 1;
    }
    s
}
