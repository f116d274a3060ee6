// Joining spline points into a B-spline of degree 3 ("Joining spline points").
#![tactic(auto)]

mod joinable;
mod spline_points;
mod writing;

ghost use Rattle.curve.specs.Lists.{lists};
ghost use Rattle.joined_curve.specs.Curve.{inner_twice, inner_thrice};
ghost use Rattle.joining.specs.SplinePoints.{spline_points};
ghost use Rattle.joining.specs.Answer.{JoinOutcome};

use crate::joinable::SplinePoints;
use curve::Lent;
use joined_curve::Meeting;
use refusal::Refusal;

// The curve of degree 3 through the spline points, each inner parameter twice: the points where pieces meet drop out of its control points. The answer is the number of points.
pub fn join(
    params: &[u16],
    xs: &[i32],
    ys: &[i32],
    dxs: &[i32],
    dys: &[i32],
    out_knots: &mut [u16],
    out_xs: &mut [i32],
    out_ys: &mut [i32],
) -> Result<usize, Refusal>
    ensures answer { JoinOutcome inner_twice
        (spline_points params.now xs.now ys.now dxs.now dys.now)
        (lists out_knots.old out_xs.old out_ys.old) result
        (lists out_knots.new out_xs.new out_ys.new) }
{
    let points = SplinePoints::check(params, xs, ys, dxs, dys)?;
    let into = Lent {
        knots: out_knots,
        xs: out_xs,
        ys: out_ys,
    };
    writing::write_joined(points, Meeting::LeftOut, into)
}

// The same curve with each inner parameter three times: the points where pieces meet are among its control points, as a path planner needs them.
// Two calls, since C and the pages name both.
pub fn join_through_points(
    params: &[u16],
    xs: &[i32],
    ys: &[i32],
    dxs: &[i32],
    dys: &[i32],
    out_knots: &mut [u16],
    out_xs: &mut [i32],
    out_ys: &mut [i32],
) -> Result<usize, Refusal>
    ensures answer { JoinOutcome inner_thrice
        (spline_points params.now xs.now ys.now dxs.now dys.now)
        (lists out_knots.old out_xs.old out_ys.old) result
        (lists out_knots.new out_xs.new out_ys.new) }
{
    let points = SplinePoints::check(params, xs, ys, dxs, dys)?;
    let into = Lent {
        knots: out_knots,
        xs: out_xs,
        ys: out_ys,
    };
    writing::write_joined(points, Meeting::Kept, into)
}
