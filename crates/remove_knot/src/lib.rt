// Removing a knot from a curve ("Inserting and removing a knot"): the call, for any input.
#![tactic(auto)]

mod judging;

ghost use Rattle.curve.specs.Lists.{lists};
ghost use Rattle.remove_knot.specs.Outcome.{RemovalOutcome};

use checked::Curve;
use curve::Lent;
use refusal::Refusal;

// Removes v once: the knots, x and y that are left go to the three lent lists, and the answer is the number of points then. A refusal leaves the lists
// as they were found.
pub fn remove_knot(
    degree: u32,
    knots: &[u16],
    xs: &[i32],
    ys: &[i32],
    v: u32,
    out_knots: &mut [u16],
    out_xs: &mut [i32],
    out_ys: &mut [i32],
) -> Result<usize, Refusal>
    ensures answer { RemovalOutcome degree (lists knots.now xs.now ys.now) v
        (lists out_knots.old out_xs.old out_ys.old) result
        (lists out_knots.new out_xs.new out_ys.new) }
{
    let curve = Curve::check(degree, knots, xs, ys)?;
    if !judging::inner_ok(curve, v) {
        return Err(Refusal::NotInner);
    }
    let mut work_knots = [0u16; grid::KNOTS_MOST];
    let mut work_xs = [0i32; grid::POINTS_MOST];
    let mut work_ys = [0i32; grid::POINTS_MOST];
    let left = xs.len() - 1;
    let fewer_knots = &mut work_knots[..knots.len() - 1];
    let fewer_xs = &mut work_xs[..left];
    let fewer_ys = &mut work_ys[..left];
    let without = Lent {
        knots: fewer_knots,
        xs: fewer_xs,
        ys: fewer_ys,
    };
    // `as`: v is a knot.
    removal_polygon::remove_polygon(curve, v as u16, without)?;
    let into = Lent {
        knots: out_knots,
        xs: out_xs,
        ys: out_ys,
    };
    into.receive(fewer_knots, fewer_xs, fewer_ys)?;
    Ok(left)
}
