// The joined curve, written over the lent lists where there is room.
ghost use Rattle.curve.specs.Lists.{lists};
ghost use Rattle.joined_curve.specs.Curve.{inner_of};
ghost use Rattle.joining.specs.SplinePoints.{spline_points};
ghost use Rattle.joining.specs.Answer.{JoinOutcome};

use crate::joinable::SplinePoints;
use curve::Lent;
use joined_curve::Meeting;
use refusal::Refusal;

// Writes it, or refuses it by 15 and leaves the lent lists as they were found. The answer is the number of its points.
// Inlined: a struct that is handed over in memory would take the stack past what the header tells.
#[inline(always)]
pub(crate) fn write_joined(
    points: SplinePoints<'_>,
    meeting: Meeting,
    into: Lent<'_>,
) -> Result<usize, Refusal>
    ensures answer { JoinOutcome (inner_of meeting)
        (spline_points points.entry.x.params.now points.entry.x.ps.now points.entry.y.ps.now
        points.entry.x.ds.now points.entry.y.ds.now)
        (lists into.entry.knots.now into.entry.xs.now into.entry.ys.now) result
        (lists into.exit.0.now into.exit.1.0.now into.exit.1.1.0.now) }
{
    // Four points for one piece, and as many as an inner knot stands for each further one; and four knots more than points.
    let count = meeting.inner() * (points.x.params.len() - 2) + 4;
    into.room(count + 4, count, count)?;
    // Taken apart: where it is handed on whole, the check loses sight of the lists that a refusal leaves.
    let Lent { knots, xs, ys } = into;
    joined_curve::write_knots(points.x, meeting, knots);
    joined_curve::write_points(points.x, meeting, xs);
    joined_curve::write_points(points.y, meeting, ys);
    Ok(count)
}
