// Clamping a curve that has passed the check: the points that carry some span, with their knots, are a part of each list, and that part is clamped.
ghost use Rattle.std.specs.Prelude.{◌≡◌, ◌-◌, ◌≤◌, ◌<◌, length, get_or};
ghost use Rattle.curve.specs.Lists.{lists};
ghost use Rattle.checked.specs.Along.{lists_of};
ghost use Rattle.span.specs.Span.{span_of};
ghost use Rattle.clamping.specs.Clamping.{first_span, last_span, carrying_part};
ghost use Rattle.clamp_ends.specs.Answer.{ClampOutcome};

use crate::judging::both_whole;
use crate::writing::{write_knots, write_points};
use checked::Curve;
use clamp_rows::Line;
use curve::Lent;
use refusal::Refusal;

// The span that holds the value of one knot.
fn span_at(curve: Curve<'_>, knot: usize) -> usize
    ensures answer { result ≡ span_of curve.entry.knots.now curve.entry.degree (length curve.entry.xs.now - 1)
        (get_or curve.entry.knots.now knot 0) 1 }
{
    let last = curve.xs.len() - 1;
    span::span_of(
        curve.knots,
        curve.degree,
        last,
        span::knot_at(curve.knots, knot),
    )
}

// The first span of the domain that is not empty, and the last.
fn end_spans(curve: Curve<'_>) -> (usize, usize)
    ensures first { result.0 ≡ first_span curve.entry.degree (lists_of curve.entry) }
    ensures last { result.1 ≡ last_span curve.entry.degree (lists_of curve.entry) }
    ensures order { (curve.entry.degree ≤ result.0) × (result.0 ≤ result.1) × (result.1 < length curve.entry.xs.now) }
{
    (span_at(curve, curve.degree), span_at(curve, curve.xs.len()))
}

// Both axes of the points that carry some span, on their knots.
fn carrying_lines<'a>(curve: Curve<'a>) -> (Line<'a>, Line<'a>)
    ensures degree { (result.0.degree ≡ curve.entry.degree) × (result.1.degree ≡ curve.entry.degree) }
    ensures knots { result.1.knots.now ≡ result.0.knots.now }
    ensures answer { lists result.0.knots.now result.0.points.now result.1.points.now
        ≡ carrying_part curve.entry.degree (lists_of curve.entry) }
{
    let degree = curve.degree;
    let (first, last) = end_spans(curve);
    let from = first - degree;
    let past = last + 1;
    let knots = &curve.knots[from..past + degree + 1];
    let x = Line {
        degree,
        knots,
        points: &curve.xs[from..past],
    };
    let y = Line {
        degree,
        knots,
        points: &curve.ys[from..past],
    };
    (x, y)
}

// Clamps a curve, or answers 11 or 15 and leaves the lent lists as they were found.
// Inlined: a struct that is handed over in memory would take the stack past what the header tells.
#[inline(always)]
pub fn clamp_checked(curve: Curve<'_>, into: Lent<'_>) -> Result<usize, Refusal>
    ensures answer { ClampOutcome curve.entry.degree (lists_of curve.entry)
        (lists into.entry.knots.now into.entry.xs.now into.entry.ys.now) result
        (lists into.exit.0.now into.exit.1.0.now into.exit.1.1.0.now) }
{
    let (x, y) = carrying_lines(curve);
    if !both_whole(x, y) {
        return Err(Refusal::NotWhole);
    }
    let count = x.points.len();
    into.room(x.knots.len(), count, y.points.len())?;
    write_knots(x, into.knots);
    write_points(x, into.xs);
    write_points(y, into.ys);
    Ok(count)
}
