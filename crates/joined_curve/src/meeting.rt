// The two ways in which a joined curve passes a spline point.
ghost use Rattle.std.specs.Prelude.{◌≡◌};

use crate::{INNER_THRICE, INNER_TWICE};

// What becomes of the points where pieces meet, as control points.
#[derive(Clone, Copy, PartialEq, Eq, Debug)]
pub enum Meeting {
    LeftOut,
    Kept,
}

impl Meeting {
    ghost use Rattle.joined_curve.specs.Curve.{inner_of};

    // How often an inner parameter stands among the knots.
    pub fn inner(self) -> usize
        ensures answer { result ≡ inner_of self }
    {
        match self {
            Meeting::LeftOut => INNER_TWICE,
            Meeting::Kept => INNER_THRICE,
        }
    }
}
