// The point at a whole parameter, bit for bit by the triangle, or the number of a refusal.
#![tactic(auto)]

ghost use Rattle.std.specs.Prelude.{◌≡◌};
ghost use Rattle.domain.specs.Parameter.{parameter_number};
ghost use Rattle.point_at.specs.Point.{point_of, answer_of};
ghost use Rattle.refusal.specs.Answers.{Answers};

use refusal::Refusal;

// A point of the plane.
#[derive(Clone, Copy, PartialEq, Debug)]
pub struct Place {
    pub x: f64,
    pub y: f64,
}

// The answer of the point call is an enum of its own, a rule of the project: the point, or the number that C sees.
#[derive(Clone, Copy, PartialEq, Debug)]
pub enum PointAnswer {
    At(Place),
    Refused(u32),
}

// The point, where its parameter is in the domain.
fn place_at(degree: u32, knots: &[u16], xs: &[i32], ys: &[i32], t: u32) -> Result<Place, Refusal>
    ensures answer { Answers (parameter_number degree knots.now xs.now ys.now t) (point_of degree knots.now xs.now ys.now t) result }
{
    let curve = domain::check_parameter(degree, knots, xs, ys, t)?;
    let m = curve.degree;
    let i = span::span_of(curve.knots, m, curve.xs.len() - 1, t);
    // `as`: t is at most a knot, and no From leads to a narrower type.
    let at = t as u16;
    let x = rows::coordinate(curve.knots, curve.xs, m, i, at);
    let y = rows::coordinate(curve.knots, curve.ys, m, i, at);
    Ok(Place { x, y })
}

// The point at t: refused 1 to 7 for the curve, then 8 for a parameter outside the domain.
pub fn point_at(degree: u32, knots: &[u16], xs: &[i32], ys: &[i32], t: u32) -> PointAnswer
    ensures answer { result ≡ answer_of degree knots.now xs.now ys.now t }
{
    match place_at(degree, knots, xs, ys, t) {
        Ok(place) => PointAnswer::At(place),
        Err(refusal) => PointAnswer::Refused(refusal.into()),
    }
}
