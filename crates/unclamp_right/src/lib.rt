// Unclamping a curve at its right end ("Ends that are not clamped"): the call, for any input.
#![tactic(auto)]

mod judging;
mod opening;

ghost use Rattle.curve.specs.Lists.{lists};
ghost use Rattle.unclamp_right.specs.Answer.{UnclampOutcome};

use checked::Curve;
use curve::Lent;
use refusal::Refusal;

// Unclamps the right end: the new knots, x and y go to the three lent lists, and the answer is the number of points, which stays. A refusal leaves the lists as
// they were found.
pub fn unclamp_right(
    degree: u32,
    knots: &[u16],
    xs: &[i32],
    ys: &[i32],
    out_knots: &mut [u16],
    out_xs: &mut [i32],
    out_ys: &mut [i32],
) -> Result<usize, Refusal>
    ensures answer { UnclampOutcome degree (lists knots.now xs.now ys.now)
        (lists out_knots.old out_xs.old out_ys.old) result
        (lists out_knots.new out_xs.new out_ys.new) }
{
    let curve = Curve::check(degree, knots, xs, ys)?;
    let into = Lent {
        knots: out_knots,
        xs: out_xs,
        ys: out_ys,
    };
    opening::unclamp_checked(curve, into)
}
