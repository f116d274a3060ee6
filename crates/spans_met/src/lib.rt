// The list of spans on which a cutter may meet a clamp.
#![tactic(auto)]

ghost use Rattle.std.specs.Prelude.{◌≡◌};
ghost use Rattle.curve.specs.Lists.{lists};
ghost use Rattle.checked.specs.Along.{lists_of};
ghost use Rattle.span_walk.specs.SpanLists.{span_lists};
ghost use Rattle.spans_met.specs.Answer.{ListAnswer, listed};

pub use boxes::Rectangle;
use checked::Curve;
use refusal::Refusal;

// List the two knots of each non-empty span whose box of carrying points meets the clamp, widened by the radius, in rising order.
// Both lists need a place for each non-empty span of the curve.
pub fn list_spans_met(
    degree: u32,
    knots: &[u16],
    xs: &[i32],
    ys: &[i32],
    clamp: Rectangle,
    radius: u32,
    lows: &mut [u16],
    highs: &mut [u16],
) -> Result<usize, Refusal>
    ensures answer { ListAnswer degree (lists knots.now xs.now ys.now) clamp radius
        (span_lists lows.old highs.old) result }
    ensures result { span_lists lows.new highs.new
        ≡ listed degree (lists knots.now xs.now ys.now) clamp radius
        (span_lists lows.old highs.old) }
{
    let curve = Curve::check(degree, knots, xs, ys)?;
    list_checked(curve, clamp, radius, lows, highs)
}

// The same of a curve that has passed the check, which only 22, 14 and 15 refuse.
pub fn list_checked(
    curve: Curve<'_>,
    clamp: Rectangle,
    radius: u32,
    lows: &mut [u16],
    highs: &mut [u16],
) -> Result<usize, Refusal>
    ensures answer { ListAnswer curve.entry.degree (lists_of curve.entry) clamp radius
        (span_lists lows.old highs.old) result }
    ensures result { span_lists lows.new highs.new
        ≡ listed curve.entry.degree (lists_of curve.entry) clamp radius
        (span_lists lows.old highs.old) }
{
    if !grid::radius_ok(radius) {
        return Err(Refusal::Radius);
    }
    if !grid::sides_ok(clamp.low_x, clamp.high_x, clamp.low_y, clamp.high_y) {
        return Err(Refusal::Rectangle);
    }
    if lows.len().min(highs.len())
        < span_walk::count_spans(curve.knots, curve.degree, curve.xs.len())
    {
        return Err(Refusal::Room);
    }
    let reach = boxes::widened(clamp, radius);
    Ok(span_listing::list_met(
        curve.knots,
        curve.xs,
        curve.ys,
        curve.degree,
        reach,
        lows,
        highs,
    ))
}
