// The result of an insertion, written to the lent lists.
ghost use Rattle.std.specs.Prelude.{◌≡◌, ◌+◌, ◌≤◌, length};
ghost use Rattle.curve.specs.HandingOver.{handed_over};
ghost use Rattle.curve.specs.Lists.{lists};
ghost use Rattle.checked.specs.Along.{lists_of};
ghost use Rattle.insertion.specs.Insertion.{inserted};

use crate::asked::Asked;
use checked::Axis;

// The new knots, x and y.
pub(crate) fn write(asked: Asked<'_>, out_knots: &mut [u16], out_xs: &mut [i32], out_ys: &mut [i32])
    requires knots_in_bounds { length asked.curve.knots.now + 1 ≤ length out_knots.old }
    requires xs_in_bounds { length asked.curve.xs.now + 1 ≤ length out_xs.old }
    requires ys_in_bounds { length asked.curve.ys.now + 1 ≤ length out_ys.old }
    ensures result { lists out_knots.new out_xs.new out_ys.new
        ≡ handed_over 0 (inserted asked.entry.curve.degree (lists_of asked.entry.curve) asked.entry.v)
        (lists out_knots.old out_xs.old out_ys.old) }
{
    insertion_parts::insert_value(asked.curve.knots, asked.v, asked.at, out_knots);
    asked.along(Axis::X).insert_points(out_xs);
    asked.along(Axis::Y).insert_points(out_ys);
}
