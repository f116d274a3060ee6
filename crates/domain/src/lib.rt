// What a call at a parameter is refused with.
#![tactic(auto)]

ghost use Rattle.std.specs.Prelude.{◌≡◌, IfOk};
ghost use Rattle.domain.specs.Parameter.{parameter_number};
ghost use Rattle.refusal.specs.Answers.{number_in};

use checked::Curve;
use refusal::Refusal;

// The curve, where its domain holds t; else the refusal with the lowest of the numbers 1 to 8 that applies.
pub fn check_parameter<'a>(
    degree: u32,
    knots: &'a [u16],
    xs: &'a [i32],
    ys: &'a [i32],
    t: u32,
) -> Result<Curve<'a>, Refusal>
    ensures answer { number_in result ≡ parameter_number degree knots.now xs.now ys.now t }
    ensures result { IfOk result (λ c. (c.degree ≡ degree) × (c.knots.now ≡ knots.entry.now)
        × (c.xs.now ≡ xs.entry.now) × (c.ys.now ≡ ys.entry.now)) }
{
    let curve = Curve::check(degree, knots, xs, ys)?;
    if !span::in_domain(curve.knots, curve.degree, curve.xs.len() - 1, t) {
        return Err(Refusal::Parameter);
    }
    Ok(curve)
}
