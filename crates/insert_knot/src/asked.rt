// A value that lies strictly inside the domain of a checked curve, and its place among the knots.
ghost use Rattle.std.specs.Prelude.{true, ◌≡◌, length};
ghost use Rattle.span.specs.Span.{strictly_inside};
ghost use Rattle.insertion.specs.Insertion.{knots_up_to};

use checked::{Axis, Curve};
use insertion_parts::Inserting;

// The value v, to be inserted behind the first `at` knots.
#[derive(Clone, Copy)]
pub struct Asked<'a> {
    pub curve: Curve<'a>,
    pub v: u16,
    pub at: usize,
    pub ghost inside: { strictly_inside curve.knots.now curve.degree (length curve.xs.now) v ≡ true },
    pub ghost place: { at ≡ knots_up_to v curve.knots.now },
}

impl<'a> Asked<'a> {
    ghost use Rattle.checked.specs.Along.{along};

    // The same on one axis.
    pub(crate) fn along(self, axis: Axis) -> Inserting<'a>
        ensures result { (result.degree ≡ self.entry.curve.degree) × (result.knots.now ≡ self.entry.curve.knots.now)
            × (result.ps.now ≡ along axis self.entry.curve.xs.now self.entry.curve.ys.now) × (result.v ≡ self.entry.v) }
    {
        Inserting {
            degree: self.curve.degree,
            knots: self.curve.knots,
            ps: self.curve.along(axis),
            v: self.v,
            span: self.at - 1,
        }
    }
}
