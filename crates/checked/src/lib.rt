// What a curve that has passed the check is known to have, and the curve as a value that carries it.
#![tactic(auto)]

ghost use Rattle.std.specs.Prelude.{◌≡◌, IfOk};
ghost use Rattle.curve.specs.Lists.{NeverFall};
ghost use Rattle.grid.specs.Check.{check_number, Passes};
ghost use Rattle.grid.specs.Sizes.{Sizes};
ghost use Rattle.refusal.specs.Answers.{number_in};

use refusal::Refusal;

// One of the two axes.
#[derive(Clone, Copy, PartialEq, Eq, Debug)]
pub enum Axis {
    X,
    Y,
}

// A curve that has passed the check: its degree, and the lists that its caller lends.
#[derive(Clone, Copy)]
pub struct Curve<'a> {
    pub degree: usize,
    pub knots: &'a [u16],
    pub xs: &'a [i32],
    pub ys: &'a [i32],
    pub ghost passes: { Passes degree knots.now xs.now ys.now },
    pub ghost sizes: { Sizes degree knots.now xs.now ys.now },
    pub ghost rising: { NeverFall knots.now },
}

impl<'a> Curve<'a> {
    ghost use Rattle.checked.specs.Along.{along};

    // The curve, or the refusal with the lowest of the numbers 1 to 7 that applies.
    pub fn check(
        degree: u32,
        knots: &'a [u16],
        xs: &'a [i32],
        ys: &'a [i32],
    ) -> Result<Curve<'a>, Refusal>
        ensures answer { number_in result ≡ check_number degree knots.now xs.now ys.now }
        ensures result { IfOk result (λ c. (c.degree ≡ degree) × (c.knots.now ≡ knots.entry.now)
            × (c.xs.now ≡ xs.entry.now) × (c.ys.now ≡ ys.entry.now)) }
    {
        grid::check(degree, knots, xs, ys)?;
        // `as`: no From leads from u32 to usize.
        Ok(Curve {
            degree: degree as usize,
            knots,
            xs,
            ys,
        })
    }

    // The coordinates along an axis.
    pub fn along(&self, axis: Axis) -> &'a [i32]
        ensures result { result.now ≡ along axis self.now.xs.now self.now.ys.now }
    {
        match axis {
            Axis::X => self.xs,
            Axis::Y => self.ys,
        }
    }
}
