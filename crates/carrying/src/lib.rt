// The carrying coordinates of a parameter: a part of the caller's own list.
#![tactic(auto)]

ghost use Rattle.std.specs.Prelude.{◌≡◌, ◌≤◌, ◌<◌, length, IfOk};
ghost use Rattle.domain.specs.Parameter.{parameter_number};
ghost use Rattle.refusal.specs.Answers.{number_in};
ghost use Rattle.span.specs.Span.{carrying_of};
ghost use Rattle.carrying.specs.Carrying.{part_of};

pub use checked::Axis;
use refusal::Refusal;

// The entries i-m to i.
fn part(ps: &[i32], m: usize, i: usize) -> &[i32]
    requires { (m ≤ i) × (i < length ps.now) }
    ensures result { result.now ≡ carrying_of m i ps.now }
{
    let end = i + 1;
    let first = end - (m + 1);
    &ps[first..end]
}

// The entries of the asked axis that carry the span of t.
fn found<'a>(
    degree: u32,
    knots: &[u16],
    xs: &'a [i32],
    ys: &'a [i32],
    t: u32,
    axis: Axis,
) -> Result<&'a [i32], Refusal>
    ensures answer { number_in result ≡ parameter_number degree knots.now xs.now ys.now t }
    ensures result { IfOk result (λ part. part.now ≡ part_of degree knots.now xs.entry.now ys.entry.now t axis) }
{
    let curve = domain::check_parameter(degree, knots, xs, ys, t)?;
    let i = span::span_of(curve.knots, curve.degree, curve.xs.len() - 1, t);
    let m = curve.degree;
    // Of the lists themselves: a curve's parts would live no longer than its knots.
    Ok(match axis {
        Axis::X => part(xs, m, i),
        Axis::Y => part(ys, m, i),
    })
}

// The m+1 entries of the asked axis that carry the span of t; on a refusal none of them. The number, 0 for none, goes to `refusal`.
pub fn carrying<'a>(
    degree: u32,
    knots: &[u16],
    xs: &'a [i32],
    ys: &'a [i32],
    t: u32,
    axis: Axis,
    // The number stands beside the part that is handed back, a rule of the project.
    refusal: &mut u32,
) -> &'a [i32]
    ensures result { result.now ≡ part_of degree knots.now xs.now ys.now t axis }
    ensures answer { refusal.new ≡ parameter_number degree knots.now xs.now ys.now t }
{
    let answer = found(degree, knots, xs, ys, t, axis);
    *refusal = refusal::number(answer);
    answer.unwrap_or(&xs[..0])
}
