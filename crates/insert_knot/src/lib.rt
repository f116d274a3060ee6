// Inserting a knot into a curve ("Inserting and removing a knot"): the call, for any input.
#![tactic(auto)]

mod asked;
mod inserting;
mod judging;
mod writing;

ghost use Rattle.curve.specs.Lists.{lists};
ghost use Rattle.insert_knot.specs.Answer.{InsertOutcome};

use checked::Curve;
use curve::Lent;
use refusal::Refusal;

// Inserts v once: the new knots, x and y go to the three lent lists, and the answer is the number of points then. A refusal leaves the lists as they were found.
pub fn insert_knot(
    degree: u32,
    knots: &[u16],
    xs: &[i32],
    ys: &[i32],
    v: u32,
    out_knots: &mut [u16],
    out_xs: &mut [i32],
    out_ys: &mut [i32],
) -> Result<usize, Refusal>
    ensures answer { InsertOutcome degree (lists knots.now xs.now ys.now) v
        (lists out_knots.old out_xs.old out_ys.old) result
        (lists out_knots.new out_xs.new out_ys.new) }
{
    let curve = Curve::check(degree, knots, xs, ys)?;
    let into = Lent {
        knots: out_knots,
        xs: out_xs,
        ys: out_ys,
    };
    inserting::insert_checked(curve, v, into)
}
