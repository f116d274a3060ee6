// Row 23: whether the right end can be unclamped.
ghost use Rattle.std.specs.Prelude.{◌≡◌, ◌+◌, length, get_or};
ghost use Rattle.checked.specs.Along.{along, lists_of};
ghost use Rattle.unclamping.specs.Unclamping.{opens};

use checked::{Axis, Curve};
use unclamp_numbers::RightEnd;
use unclamp_parts::{knots_open, points_open};

// The right end of one axis, where it is clamped.
pub(crate) fn right_end<'a>(curve: Curve<'a>, axis: Axis) -> RightEnd<'a>
    requires { get_or curve.knots.now (length curve.xs.now + curve.degree) 0 ≡ get_or curve.knots.now (length curve.xs.now) 0 }
    ensures degree { result.degree ≡ curve.entry.degree }
    ensures knots { result.knots.now ≡ curve.entry.knots.now }
    ensures points { result.points.now ≡ along axis curve.entry.xs.now curve.entry.ys.now }
{
    RightEnd {
        degree: curve.degree,
        knots: curve.knots,
        points: curve.along(axis),
    }
}

// The knots, then x, then y.
pub(crate) fn can_open(curve: Curve<'_>) -> bool
    ensures answer { result ≡ opens curve.entry.degree (lists_of curve.entry) }
{
    knots_open(curve)
        && (points_open(right_end(curve, Axis::X)) && points_open(right_end(curve, Axis::Y)))
}
