// Unclamping a curve that has passed the check.
ghost use Rattle.curve.specs.Lists.{lists};
ghost use Rattle.checked.specs.Along.{lists_of};
ghost use Rattle.unclamp_right.specs.Answer.{UnclampOutcome};

use crate::judging::{can_open, right_end};
use checked::{Axis, Curve};
use curve::Lent;
use refusal::Refusal;
use unclamp_parts::{write_knots, write_points};

// Unclamps the right end, or answers 23 or 15 and leaves the lent lists as they were found.
pub(crate) fn unclamp_checked(curve: Curve<'_>, into: Lent<'_>) -> Result<usize, Refusal>
    ensures answer { UnclampOutcome curve.entry.degree (lists_of curve.entry)
        (lists into.entry.knots.now into.entry.xs.now into.entry.ys.now) result
        (lists into.exit.0.now into.exit.1.0.now into.exit.1.1.0.now) }
{
    if !can_open(curve) {
        return Err(Refusal::Unclamp);
    }
    into.room(curve.knots.len(), curve.xs.len(), curve.ys.len())?;
    write_knots(curve, into.knots);
    write_points(right_end(curve, Axis::X), into.xs);
    write_points(right_end(curve, Axis::Y), into.ys);
    Ok(curve.xs.len())
}
