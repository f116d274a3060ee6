// Removing a knot ("Inserting and removing a knot") from both axes of a curve that has passed the check.
#![tactic(auto)]

mod knots;

ghost use Rattle.std.specs.Prelude.{◌≡◌, ◌+◌, length};
ghost use Rattle.curve.specs.Lists.{lists};
ghost use Rattle.checked.specs.Along.{lists_of};
ghost use Rattle.removal.specs.Polygon.{Inner};
ghost use Rattle.removal_polygon.specs.Outcome.{PolygonOutcome};

use checked::Curve;
use curve::Lent;
use refusal::Refusal;

// The knots with one v fewer and the polygon on them that gives the old points back, or a refusal where there is none. The lists are to work in: a
// refusal leaves anything in them.
pub fn remove_polygon(curve: Curve<'_>, v: u16, into: Lent<'_>) -> Result<(), Refusal>
    requires inner { Inner curve.degree curve.knots.now curve.xs.now curve.ys.now v }
    requires knots_len { length into.knots.now + 1 ≡ length curve.knots.now }
    requires xs_len { length into.xs.now + 1 ≡ length curve.xs.now }
    requires ys_len { length into.ys.now + 1 ≡ length curve.ys.now }
    ensures answer { PolygonOutcome curve.entry.degree (lists_of curve.entry) v
        (lists into.exit.0.now into.exit.1.0.now into.exit.1.1.0.now) result }
{
    let Lent { knots, xs, ys } = into;
    let m = curve.degree;
    let at = insertion_parts::knots_up_to(curve.knots, v) - 1;
    knots::remove_at(curve.knots, at, knots);
    let i = at - 1;
    removal_walk::remove_axis(m, knots, curve.xs, v, i, xs)?;
    removal_walk::remove_axis(m, knots, curve.ys, v, i, ys)
}
