// The points between the two sides: a walk from the left, which must agree with the right side where it ends. m, ks, ps and v stay
// apart: no two of the parts ask the same of them, and one takes no ps.
ghost use Rattle.std.specs.Prelude.{◌≡◌, ◌+◌, ◌-◌, ◌≤◌, ◌<◌, length};
ghost use Rattle.insertion.specs.Insertion.{insertion_span};
ghost use Rattle.insertion.specs.Standing.{Weighed};
ghost use Rattle.removal.specs.Axis.{Reduced};
ghost use Rattle.removal_walk.specs.Walk.{FarEnd, WalkOutcome, Says, FarAgrees, BetweenSides};

use refusal::Refusal;

// The last j from i-m+1 to i whose knot is below v, or i-m+1. A walk from the right that ends early: no range would say it more plainly.
#[tactic(auto, using(crate::proofs::SpanRules::span_inside))]
pub(crate) fn far_end(m: usize, ks: &[u16], v: u16, i: usize) -> usize
    requires reduced { Reduced m ks.now (length ks.now - (m + 1)) v }
    requires i_value { i ≡ insertion_span ks.now v }
    ensures answer { FarEnd m ks.now v result }
{
    let first = i + 1 - m;
    let mut far = i;
    while first < far {
        if ks[far] < v {
            return far;
        }
        far -= 1;
    }
    far
}

// Writes P_{i-m} and the points behind it up to `far`, or refuses where one is not whole or off the grid.
#[tactic(auto, using(crate::proofs::SpanRules::span_inside))]
pub(crate) fn from_left(
    m: usize,
    ks: &[u16],
    ps: &[i32],
    v: u16,
    i: usize,
    far: usize,
    out: &mut [i32],
) -> Result<(), Refusal>
    requires reduced { Reduced m ks.now (length ps.now - 1) v }
    requires i_value { i ≡ insertion_span ks.now v }
    requires far_end { FarEnd m ks.now v far }
    requires out_len { length out.old + 1 ≡ length ps.now }
    ensures answer { WalkOutcome m ks.now v ps.now out.new far result }
{
    let start = i - m;
    let mut last = ps[start];
    out[start] = last;
    for j in start + 1..far {
        let rest = crate::forward::left_for(m, ks, ps, v, j, last);
        let d = v - ks[j];
        if !crate::forward::is_point(rest, d) {
            return Err(Refusal::NotRemovable);
        }
        last = insertion_parts::quotient(rest, d);
        out[j] = last;
    }
    Ok(())
}

// Whether the point that the right side gives at `far` is the one that follows from the point before it.
pub(crate) fn agrees(m: usize, ks: &[u16], ps: &[i32], v: u16, far: usize, last: i32) -> bool
    requires { Weighed m ks.now (length ps.now - 1) v far }
    ensures answer { Says result (FarAgrees m ks.now ps.now v far last) }
{
    let rest = crate::forward::left_for(m, ks, ps, v, far, last);
    let asked = insertion_parts::weighted_sum(v - ks[far], ps[far + 1], 0, 0);
    rest == asked
}

// The old coordinates in front of `start`, and those behind `far`, one place back.
pub(crate) fn copy_sides(ps: &[i32], start: usize, far: usize, out: &mut [i32])
    requires start_le_far { start ≤ far }
    requires far_in_bounds { far < length out.old }
    requires out_len { length out.old + 1 ≡ length ps.now }
    ensures result { BetweenSides ps.now start far out.old out.new }
{
    copying::copy_into(&ps[..start], out);
    copying::copy_into(&ps[far + 1..], &mut out[far..]);
}
