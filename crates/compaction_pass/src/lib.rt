// The parts of compacting a curve ("Inserting and removing a knot"). The curve comes into working lists point by point; as soon as the last knot
// of a value is there, the value is dealt with. A removal changes the last few points alone, so a pass takes time in proportion to the lists.
#![tactic(auto)]

mod start;

ghost use Rattle.std.specs.Prelude.{length};
ghost use Rattle.checked.specs.Along.{lists_of};
ghost use Rattle.value_removal.specs.Work.{Holding};
ghost use Rattle.compaction_pass.specs.Outcome.{PassOutcome};

use checked::Curve;
use curve::Lent;

// One pass over the inner values, from left to right: what is left of the curve stands at the front of the lent lists.
// Answers the number of points that are left.
pub fn compact_into(curve: Curve<'_>, front: Lent<'_>) -> usize
    requires holding { Holding curve.degree (length curve.xs.now) front.knots.now front.xs.now front.ys.now }
    ensures answer { PassOutcome curve.entry.degree (length curve.entry.xs.now) (lists_of curve.entry)
        front.exit.0.now front.exit.1.0.now front.exit.1.1.0.now result }
{
    let Lent { knots, xs, ys } = front;
    let width = curve.degree + 1;
    let first = start::copy_first(curve, knots, xs, ys);
    let mut left = first;
    for taken in first..curve.xs.len() {
        knots[left + width] = curve.knots[taken + width];
        xs[left] = curve.xs[taken];
        ys[left] = curve.ys[taken];
        left = value_removal::remove_value(curve.degree, left + 1, knots, xs, ys);
    }
    left
}
